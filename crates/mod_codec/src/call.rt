// A call of a native.
ghost use Rattle.std.specs.Prelude.{◌≡◌, IsTrue};
ghost use Rattle.star_steps.specs.Names.{Gives, Owns, seen, state_in, value_of};
ghost use Rattle.star_values.specs.Owns.{OwnsArguments};
ghost use Rattle.star_values.specs.View.{arguments_in};
ghost use Rattle.star_values.specs.declared.value.Value.TheVariants as value;
ghost use Rattle.mod_codec.specs.View.{answer_of, takes_text, value_row_of};

use crate::bytes::{base64_decode, base64_encode, md5_sum, sha256_sum};
use crate::document::{yaml_decode, yaml_encode};
use crate::table::{Codec, parameter_of};
use mod_json::{decode, encode};
use object_arena::{Arena, CallArgs, Ref, Value, Work};
use star_calls::bind_named;
use star_steps::{Given, refusal};
use star_text::argument;
use ytt_base::fault::{FaultKind, Place};

/// What a native gives for its one argument; each refusal at the place: `ArgBind` of arguments that don't fit, `ValueKind` of a value that
/// is no text where a text is taken, `CodecForm` of a text in no proper form and of a value that JSON doesn't have, `NotYaml` of a value that
/// is no document, `TooDeep` of what nests more than 100 collections, and `Steps`.
pub fn codec_call(
    arena: &mut Arena,
    work: &mut Work,
    codec: Codec,
    args: CallArgs,
    at: Place,
) -> Given
    requires { OwnsArguments (seen arena.old) args }
    ensures row { Gives (value_row_of codec at (arguments_in (seen arena.old).held args) (state_in (seen arena.old) work.old.steps)) result (seen arena.old) (seen arena.new) work.new.steps }
    ensures depth { work.new.depth ≡ work.old.depth }
{
    let values = bind_named(arena, &[parameter_of(codec)], &[], args, at)?;
    let value = argument(arena, values.as_slice(), 0);
    answered(arena, work, codec, value, at)
}

/// What it gives for a value.
fn answered(arena: &mut Arena, work: &mut Work, codec: Codec, value: Value, at: Place) -> Given
    requires { Owns (seen arena.old) value }
    ensures row { Gives (answer_of codec at (value_of (seen arena.old) value) (state_in (seen arena.old) work.old.steps)) result (seen arena.old) (seen arena.new) work.new.steps }
    ensures depth { work.new.depth ≡ work.old.depth }
{
    match codec {
        Codec::JsonEncode => encode(arena, &mut work.steps, value, at),
        Codec::YamlEncode => yaml_encode(arena, work, value, at),
        Codec::JsonDecode
        | Codec::YamlDecode
        | Codec::Base64Encode
        | Codec::Base64Decode
        | Codec::Sha256
        | Codec::Md5 => match value {
            Value::Text(text) => of_text(arena, &mut work.steps, codec, text, at),
            _ => Err(refusal(arena, FaultKind::ValueKind, at)),
        },
    }
}

/// What one that takes a text gives for a text.
fn of_text(arena: &mut Arena, steps: &mut u64, codec: Codec, text: Ref, at: Place) -> Given
    requires text { Owns (seen arena.old) (value.Text text) }
    requires kind { IsTrue (takes_text codec) }
    ensures { Gives (answer_of codec at (value_of (seen arena.old) (value.Text text)) (state_in (seen arena.old) steps.old)) result (seen arena.old) (seen arena.new) steps.new }
{
    match codec {
        Codec::JsonDecode => decode(arena, steps, text, at),
        Codec::YamlDecode => yaml_decode(arena, steps, text, at),
        Codec::Base64Encode => base64_encode(arena, steps, text, at),
        Codec::Base64Decode => base64_decode(arena, steps, text, at),
        Codec::Sha256 => sha256_sum(arena, steps, text, at),
        Codec::Md5 => md5_sum(arena, steps, text, at),
        Codec::JsonEncode | Codec::YamlEncode => unreachable!(),
    }
}
