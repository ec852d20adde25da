// Texts and numbers.
ghost use Rattle.std.specs.Prelude.{◌≡◌, IfOk, option_map, string_bytes};
ghost use Rattle.module_spec.specs.JsonCodec.{number_data, text_data};
ghost use Rattle.serde_json.specs.View.{view};
ghost use Rattle.star_steps.specs.Names.{paid, seen};
ghost use Rattle.mod_json.specs.Walk.{Spends, Tells, key_text, text_paid};

use object_arena::Arena;
use serde_json::Value as Json;
use star_steps::{pay, refusal};
use std::alloc::Global;
use ytt_base::fault::{FaultKind, Place, Stop};
use ytt_base::text::{Memory, Text};

/// The steps of each member, before those of what it is.
pub(crate) const MEMBER_STEPS: u128 = 1;

/// An integer, where it has 64 bits, with a sign or without one; else `CodecForm`.
pub(crate) fn number_json(arena: &Arena, place: Place, number: i128) -> Result<Json, Stop>
    ensures { Tells view result (number_data place number) }
{
    if let Ok(natural) = u64::try_from(number) {
        return Ok(Json::from(natural));
    }
    if let Ok(integer) = i64::try_from(number) {
        return Ok(Json::from(integer));
    }
    Err(refusal(arena, FaultKind::CodecForm, place))
}

/// A text, after a sixteenth of its bytes as steps.
pub(crate) fn text_json(
    arena: &Arena,
    place: Place,
    text: &Text,
    steps: &mut u64,
) -> Result<Json, Stop>
    ensures { Spends view result (seen arena.now) steps.old steps.new (text_data place text.now) }
{
    let text = paid_text(arena, place, text, steps)?;
    Ok(Json::String(text))
}

/// A string with the bytes of a text, after a sixteenth of them as steps.
fn paid_text(arena: &Arena, place: Place, text: &Text, steps: &mut u64) -> Result<String, Stop>
    ensures { Spends (λ s. string_bytes s) result (seen arena.now) steps.old steps.new (text_paid place text.now) }
{
    pay(arena, place, text.as_str().len() as u128 / 16, steps)?;
    Ok(string_of(arena.alloc(), text.as_str())?)
}

fn string_of(alloc: Global, text: &str) -> Result<String, Memory>
    ensures { IfOk result (λ s. string_bytes s ≡ text.now) }
{
    Ok(String::from_str(alloc, text)?)
}

/// A key that is a text, after a step; else `CodecForm`.
pub(crate) fn paid_key(
    arena: &Arena,
    place: Place,
    text: Option<&Text>,
    steps: &mut u64,
) -> Result<String, Stop>
    ensures { Spends (λ s. string_bytes s) result (seen arena.now) steps.old steps.new (paid place (key_text place (option_map (λ t. t.now) text.entry))) }
{
    pay(arena, place, MEMBER_STEPS, steps)?;
    match text {
        Some(text) => paid_text(arena, place, text, steps),
        None => Err(refusal(arena, FaultKind::CodecForm, place)),
    }
}
