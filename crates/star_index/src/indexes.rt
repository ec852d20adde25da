// Indexes.
ghost use Rattle.star_steps.specs.Names.{ℕ, by_place, index_row, member_at, number_at, seen, Owns, OwnsAll, value_of, values_of, Gives, Meets, as_is, state_in};
ghost use Rattle.star_values.specs.declared.value.Value.TheVariants as value;
ghost use Rattle.star_index.specs.Cuts.{character};

use crate::fragments::child_of;
use crate::keys::{field_of, value_of_key};
use crate::places::place_among;
use crate::texts::{Part, cut_text};
use object_arena::{Arena, Ref, Value};
use star_compare::bounds;
use star_integers::{number_at, range_count};
use star_steps::{Given, refusal};
use ytt_base::fault::{FaultKind, Place};
use ytt_base::text::Text;

/// What an index of a value gives, each refusal at its place: `ValueKind` for kinds without indexes, for a place that is no integer and
/// for what is no key; `IndexRange`; `KeyMissing` with the key's text; `CutsCharacter`; `Steps` and `TooDeep` of a key's size, and of a
/// fragment's member.
pub fn index(arena: &mut Arena, place: Place, value: Value, index: Value, steps: &mut u64) -> Given
    requires value { Owns (seen arena.old) value }
    requires index { Owns (seen arena.old) index }
    ensures { Gives (index_row place (value_of (seen arena.old) value) (value_of (seen arena.old) index) (state_in (seen arena.old) steps.old)) result (seen arena.old) (seen arena.new) steps.new }
{
    match value {
        Value::Tuple(tuple) => member_at(arena, place, arena.tuple(tuple), index),
        Value::List(list) => member_at(arena, place, arena.list(list), index),
        Value::Range(range) => number_of(arena, place, range, index),
        Value::Text(text) => character_at(arena, place, text, index),
        Value::Dict(dict) => value_of_key(arena, place, dict, index, steps),
        Value::Struct(fields) => field_of(arena, place, fields, index, steps),
        Value::Fragment(fragment) => child_of(arena, place, fragment, index, steps),
        _ => Err(refusal(arena, FaultKind::ValueKind, place)),
    }
}

/// A member of a tuple or list.
fn member_at(arena: &Arena, place: Place, members: &[Value], index: Value) -> Given
    requires { OwnsAll (seen arena.now) members.now }
    ensures { (n : ℕ) → Gives (by_place place (member_at place (values_of (seen arena.now) members.now)) (value_of (seen arena.now) index) (state_in (seen arena.now) n)) result (seen arena.now) (seen arena.now) n }
{
    match index {
        Value::Int(index) => match place_among(members.len() as u128, index) {
            Some(at) => Ok(members[at as usize]),
            None => Err(refusal(arena, FaultKind::IndexRange, place)),
        },
        _ => Err(refusal(arena, FaultKind::ValueKind, place)),
    }
}

/// A number of a range.
fn number_of(arena: &Arena, place: Place, range: Ref, index: Value) -> Given
    requires { Owns (seen arena.now) (value.Range range) }
    ensures { (n : ℕ) → Gives (index_row place (value_of (seen arena.now) (value.Range range)) (value_of (seen arena.now) index) (state_in (seen arena.now) n)) result (seen arena.now) (seen arena.now) n }
{
    number_in(arena, place, bounds(arena, range), index)
}

/// A number from the first of these on and before the second, by steps of the third.
fn number_in(arena: &Arena, place: Place, range: (i128, i128, i128), index: Value) -> Given
    ensures { (n : ℕ) → Gives (by_place place (number_at place range.0 range.1 range.2) (value_of (seen arena.now) index) (state_in (seen arena.now) n)) result (seen arena.now) (seen arena.now) n }
{
    let (from, to, step) = range;
    match index {
        Value::Int(index) => match place_among(range_count(from, to, step), index) {
            Some(at) => Ok(Value::Int(number_at(from, step, at))),
            None => Err(refusal(arena, FaultKind::IndexRange, place)),
        },
        _ => Err(refusal(arena, FaultKind::ValueKind, place)),
    }
}

/// A byte of a text that is a whole character.
fn character_at(arena: &mut Arena, place: Place, text: Ref, index: Value) -> Given
    requires { Owns (seen arena.old) (value.Text text) }
    ensures { (n : ℕ) → Gives (index_row place (value_of (seen arena.old) (value.Text text)) (value_of (seen arena.old) index) (state_in (seen arena.old) n)) result (seen arena.old) (seen arena.new) n }
{
    let character = character(arena, place, arena.text(text).as_str(), index)?;
    Ok(arena.new_text(character)?)
}

fn character(arena: &Arena, place: Place, text: &str, index: Value) -> Part
    ensures { (n : ℕ) → Meets as_is result (state_in (seen arena.now) n) (character place text.now (value_of (seen arena.now) index) (state_in (seen arena.now) n)) }
{
    match index {
        Value::Int(index) => match place_among(text.len() as u128, index) {
            Some(at) => cut_text(arena, place, text, at as usize, at as usize + 1),
            None => Err(refusal(arena, FaultKind::IndexRange, place)),
        },
        _ => Err(refusal(arena, FaultKind::ValueKind, place)),
    }
}
