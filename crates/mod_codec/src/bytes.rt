// Texts of texts: Base64 and digests.
ghost use Rattle.std.specs.Prelude.{◌≡◌, ◌<◌, [], ◌∷◌, IfOk, string_bytes};
ghost use Rattle.base64.specs.Engines.{standard};
ghost use Rattle.base64.specs.GeneralPurpose.{decode_of, encode_of};
ghost use Rattle.mod_json.specs.View.{text_at};
ghost use Rattle.module_spec.specs.Codecs.{decode, digit, encode, hexadecimal, md5_row, sha256_row, text_for, text_in};
ghost use Rattle.star_steps.specs.Names.{Gives, Owns, or_fail, seen, state_in};
ghost use Rattle.star_values.specs.declared.value.Value.TheVariants as value;
ghost use Rattle.ytt_base.specs.declared.fault.FaultKind.TheVariants as kind;
ghost use Rattle.mod_codec.specs.View.{Tells};

use base64::DecodeAllocError;
use base64::engine::general_purpose::STANDARD;
use md5::Md5;
use object_arena::{Arena, Ref, Value};
use sha2::Sha256;
use star_steps::{Given, refusal};
use star_text::pay_operation;
use std::alloc::Global;
use ytt_base::fault::{FaultKind, Place, Stop};
use ytt_base::text::{Memory, Text};

/// The text that stands for a text in Base64, with padding (RFC 4648, section 4). It takes a sixteenth of the bytes of both texts as steps.
pub(crate) fn base64_encode(arena: &mut Arena, steps: &mut u64, text: Ref, at: Place) -> Given
    requires { Owns (seen arena.old) (value.Text text) }
    ensures { Gives (encode at (text_at (seen arena.old) text) (state_in (seen arena.old) steps.old)) result (seen arena.old) (seen arena.new) steps.new }
{
    let answer = encoded(arena.alloc(), arena.text(text).as_str())?;
    give_for(arena, steps, text, answer, at)
}

fn encoded(alloc: Global, text: &str) -> Result<String, Memory>
    ensures { IfOk result (λ s. string_bytes s ≡ encode_of standard text.now) }
{
    Ok(STANDARD.encode(alloc, text.as_bytes())?)
}

/// The text that a text in Base64 stands for. `CodecForm` where it isn't Base64 or stands for no text in UTF-8.
pub(crate) fn base64_decode(arena: &mut Arena, steps: &mut u64, text: Ref, at: Place) -> Given
    requires { Owns (seen arena.old) (value.Text text) }
    ensures { Gives (decode at (text_at (seen arena.old) text) (state_in (seen arena.old) steps.old)) result (seen arena.old) (seen arena.new) steps.new }
{
    let answer = decoded(arena, arena.text(text).as_str(), at)?;
    give_for(arena, steps, text, answer, at)
}

fn decoded(arena: &Arena, text: &str, at: Place) -> Result<String, Stop>
    ensures { Tells (λ s. string_bytes s) result (or_fail kind.CodecForm at (text_in (decode_of standard text.now))) }
{
    match STANDARD.decode(arena.alloc(), text.as_bytes()) {
        Ok(bytes) => match String::from_utf8(bytes) {
            Ok(text) => Ok(text),
            Err(_) => Err(refusal(arena, FaultKind::CodecForm, at)),
        },
        Err(DecodeAllocError::DecodeError(_)) => Err(refusal(arena, FaultKind::CodecForm, at)),
        Err(DecodeAllocError::OutOfMemory) => Err(Stop::Memory),
    }
}

/// The SHA-256 of a text (FIPS 180-4) in hexadecimal digits.
pub(crate) fn sha256_sum(arena: &mut Arena, steps: &mut u64, text: Ref, at: Place) -> Given
    requires { Owns (seen arena.old) (value.Text text) }
    ensures { Gives (sha256_row at (text_at (seen arena.old) text) (state_in (seen arena.old) steps.old)) result (seen arena.old) (seen arena.new) steps.new }
{
    let digest = <Sha256 as sha2::Digest>::digest(arena.text(text).as_str().as_bytes());
    let answer = hexadecimal(arena.alloc(), &digest)?;
    give_for(arena, steps, text, answer, at)
}

/// The MD5 of a text (RFC 1321) in hexadecimal digits.
pub(crate) fn md5_sum(arena: &mut Arena, steps: &mut u64, text: Ref, at: Place) -> Given
    requires { Owns (seen arena.old) (value.Text text) }
    ensures { Gives (md5_row at (text_at (seen arena.old) text) (state_in (seen arena.old) steps.old)) result (seen arena.old) (seen arena.new) steps.new }
{
    let digest = <Md5 as md5::Digest>::digest(arena.text(text).as_str().as_bytes());
    let answer = hexadecimal(arena.alloc(), &digest)?;
    give_for(arena, steps, text, answer, at)
}

/// Two digits in lower case for each byte.
fn hexadecimal(alloc: Global, bytes: &[u8]) -> Result<String, Memory>
    ensures { IfOk result (λ s. string_bytes s ≡ hexadecimal bytes.now) }
{
    let mut text = String::new(alloc);
    let mut rest = bytes;
    while let Some((first, more)) = rest.split_first() {
        text.push(digit(*first / 16))?;
        text.push(digit(*first % 16))?;
        rest = more;
    }
    Ok(text)
}

fn digit(number: u8) -> char
    requires { number < 16 }
    ensures { result ≡ digit number }
{
    if number < 10 {
        char::from(48 + number)
    } else {
        char::from(87 + number)
    }
}

/// A text for a text, after a sixteenth of the bytes of both as steps.
fn give_for(arena: &mut Arena, steps: &mut u64, text: Ref, answer: String, at: Place) -> Given
    requires { Owns (seen arena.old) (value.Text text) }
    ensures { Gives (text_for at (text_at (seen arena.old) text) (string_bytes answer) (state_in (seen arena.old) steps.old)) result (seen arena.old) (seen arena.new) steps.new }
{
    let bytes = Some(answer.len() as u128);
    pay_operation(arena, at, Value::Text(text), &[], bytes, Some(0), steps)?;
    Ok(arena.new_text(Text::of_string(answer))?)
}
