// The text of a value.
ghost use Rattle.std.specs.Prelude.{◌≡◌, IfOk, false, string_bytes};
ghost use Rattle.module_spec.specs.JsonCodec.{encode};
ghost use Rattle.serde_json.specs.View.{view};
ghost use Rattle.serde_json.specs.Written.{compact_text, has_float};
ghost use Rattle.star_steps.specs.Names.{Gives, Owns, seen, state_in, value_of};

use crate::values::value_json;
use object_arena::{Arena, Value};
use serde_json::Value as Json;
use star_steps::Given;
use std::alloc::Global;
use ytt_base::fault::Place;
use ytt_base::text::{Memory, Text};

/// The greatest depth of a tree.
pub(crate) const MAX_DEPTH: u32 = 100;

/// The JSON text of a value, without white space, an object's members in the order of their keys. A text takes a sixteenth of its bytes as
/// steps, each member of a collection one more. Refusals, at the place: `NotYaml` of what is neither none, a bool, an integer, a text nor a
/// collection; `CodecForm` of a key that is no text and of an integer that has no 64 bits; `TooDeep` of more than 100 levels; `Steps`.
pub fn encode(arena: &mut Arena, steps: &mut u64, value: Value, at: Place) -> Given
    requires { Owns (seen arena.old) value }
    ensures { Gives (encode at (value_of (seen arena.old) value) (state_in (seen arena.old) steps.old)) result (seen arena.old) (seen arena.new) steps.new }
{
    let json = value_json(arena, at, MAX_DEPTH, value, steps)?;
    let text = compact_text(arena.alloc(), &json)?;
    Ok(arena.new_text(Text::of_string(text))?)
}

fn compact_text(alloc: Global, json: &Json) -> Result<String, Memory>
    ensures { IfOk result (λ s. has_float (view json.now) ≡ false → string_bytes s ≡ compact_text (view json.now)) }
{
    Ok(json.to_string(alloc)?)
}
