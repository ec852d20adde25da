// What an index gets.
ghost use Rattle.std.specs.Prelude.{◌≡◌};
ghost use Rattle.star_steps.specs.Names.{ℕ, set_index_row, set_member_at, dict_value, list_value, seen, Grows, Owns, value_of, Meets, as_is, state_in};
ghost use Rattle.star_values.specs.declared.value.Value.TheVariants as value;

use crate::places::place_among;
use object_arena::{Arena, Ref, Value};
use star_compare::key_size;
use star_steps::{Paid, refusal, stop_at};
use ytt_base::fault::{FaultKind, Place};

/// Puts a value in the place of a member of a list, or under a key of a dict. Each refusal is at the place: `Frozen` and `Iterating`
/// of what can't be changed, before all else; then `ValueKind` for a list's place that is no integer and for what is no key; `IndexRange`;
/// `Steps` and `TooDeep` of a key's size. All other values have no indexes that get something, which is `ValueKind`.
pub fn set_index(
    arena: &mut Arena,
    place: Place,
    value: Value,
    index: Value,
    new: Value,
    steps: &mut u64,
) -> Paid
    requires value { Owns (seen arena.old) value }
    requires index { Owns (seen arena.old) index }
    requires new { Owns (seen arena.old) new }
    ensures meaning { Meets as_is result (state_in (seen arena.new) steps.new) (set_index_row place (value_of (seen arena.old) value) (value_of (seen arena.old) index) (value_of (seen arena.old) new) (state_in (seen arena.old) steps.old)) }
    ensures held { (seen arena.new).held ≡ (seen arena.old).held }
    ensures grows { Grows (seen arena.old) (seen arena.new) }
{
    match value {
        Value::List(list) => set_member(arena, place, list, index, new),
        Value::Dict(dict) => set_key(arena, place, dict, index, new, steps),
        _ => Err(refusal(arena, FaultKind::ValueKind, place)),
    }
}

/// Puts a value in the place of a member of a list.
fn set_member(arena: &mut Arena, place: Place, list: Ref, index: Value, new: Value) -> Paid
    requires list { Owns (seen arena.old) (value.List list) }
    requires new { Owns (seen arena.old) new }
    ensures meaning { (n : ℕ) → Meets as_is result (state_in (seen arena.new) n) (set_index_row place (list_value list.at) (value_of (seen arena.old) index) (value_of (seen arena.old) new) (state_in (seen arena.old) n)) }
    ensures held { (seen arena.new).held ≡ (seen arena.old).held }
    ensures grows { Grows (seen arena.old) (seen arena.new) }
{
    if let Err(stop) = arena.may_change(list) {
        return Err(stop_at(arena, stop, place));
    }
    match index {
        Value::Int(index) => set_member_at(arena, place, list, index, new),
        _ => Err(refusal(arena, FaultKind::ValueKind, place)),
    }
}

/// The same at a place that is an integer.
fn set_member_at(arena: &mut Arena, place: Place, list: Ref, index: i128, new: Value) -> Paid
    requires list { Owns (seen arena.old) (value.List list) }
    requires new { Owns (seen arena.old) new }
    ensures meaning { (n : ℕ) → Meets as_is result (state_in (seen arena.new) n) (set_member_at place list.at index (value_of (seen arena.old) new) (state_in (seen arena.old) n)) }
    ensures held { (seen arena.new).held ≡ (seen arena.old).held }
    ensures grows { Grows (seen arena.old) (seen arena.new) }
{
    match place_among(arena.list(list).len() as u128, index) {
        None => Err(refusal(arena, FaultKind::IndexRange, place)),
        Some(at) => match arena.list_set(list, at as u64, new) {
            Ok(()) => Ok(()),
            Err(stop) => Err(stop_at(arena, stop, place)),
        },
    }
}

/// Puts a value under a key of a dict.
fn set_key(
    arena: &mut Arena,
    place: Place,
    dict: Ref,
    key: Value,
    new: Value,
    steps: &mut u64,
) -> Paid
    requires dict { Owns (seen arena.old) (value.Dict dict) }
    requires key { Owns (seen arena.old) key }
    requires new { Owns (seen arena.old) new }
    ensures meaning { Meets as_is result (state_in (seen arena.new) steps.new) (set_index_row place (dict_value dict.at) (value_of (seen arena.old) key) (value_of (seen arena.old) new) (state_in (seen arena.old) steps.old)) }
    ensures held { (seen arena.new).held ≡ (seen arena.old).held }
    ensures grows { Grows (seen arena.old) (seen arena.new) }
{
    if let Err(stop) = arena.may_change(dict) {
        return Err(stop_at(arena, stop, place));
    }
    key_size(arena, place, key, steps)?;
    match arena.dict_put(dict, key, new) {
        Ok(()) => Ok(()),
        Err(stop) => Err(stop_at(arena, stop, place)),
    }
}
