// Members of fragments.
ghost use Rattle.std.specs.Prelude.{◌≡◌};
ghost use Rattle.star_steps.specs.Names.{is_some, as_scalar, by_place, element_at, entry_of, index_row, seen, Owns, View, value_of, Gives, state_in};
ghost use Rattle.star_values.specs.declared.value.Value.TheVariants as value;
ghost use Rattle.star_fragments.specs.Fragments.{children_at};
ghost use Rattle.star_index.specs.Cuts.{absent};

use crate::keys::{missing, other_key};
use crate::places::place_among;
use object_arena::{Arena, ItemKind, Ref, Value};
use star_fragments::{fragment_length, kind_of, member_value, place_of_key};
use star_steps::{Given, refusal};
use ytt_base::fault::{FaultKind, Place};

/// The value of a member: of a key, where the items are pairs, or at a place, where they are elements.
pub fn child_of(arena: &mut Arena, place: Place, whole: Ref, index: Value, steps: &mut u64) -> Given
    requires whole { Owns (seen arena.old) (value.Fragment whole) }
    requires index { Owns (seen arena.old) index }
    ensures { Gives (index_row place (value_of (seen arena.old) (value.Fragment whole)) (value_of (seen arena.old) index) (state_in (seen arena.old) steps.old)) result (seen arena.old) (seen arena.new) steps.new }
{
    match kind_of(arena, whole) {
        ItemKind::Pair => entry_of(arena, place, whole, index, steps),
        ItemKind::Element => element_at(arena, place, whole, index, steps),
        ItemKind::Document => Err(refusal(arena, FaultKind::ValueKind, place)),
    }
}

fn entry_of(arena: &mut Arena, place: Place, whole: Ref, key: Value, steps: &mut u64) -> Given
    requires whole { Owns (seen arena.old) (value.Fragment whole) }
    requires key { Owns (seen arena.old) key }
    ensures { Gives (entry_of place (children_at (seen arena.old) whole) (value_of (seen arena.old) key) (state_in (seen arena.old) steps.old)) result (seen arena.old) (seen arena.new) steps.new }
{
    match place_of_key(arena, whole, key) {
        Some(at) => member_value(arena, place, whole, at, steps),
        None => no_entry(arena, place, key, steps),
    }
}

/// The refusal of a key that isn't there.
fn no_entry(arena: &Arena, place: Place, key: Value, steps: &mut u64) -> Given
    requires { Owns (seen arena.now) key }
    ensures { Gives (absent place (value_of (seen arena.now) key) (state_in (seen arena.now) steps.old)) result (seen arena.now) (seen arena.now) steps.new }
{
    if is_scalar(key) {
        return Err(missing(arena, place, key));
    }
    other_key(arena, place, key, steps)
}

/// Whether a pair may have such a key.
fn is_scalar(key: Value) -> bool
    ensures { (a : View) → result ≡ is_some (as_scalar (value_of a key)) }
{
    matches!(
        key,
        Value::None | Value::Bool(_) | Value::Int(_) | Value::Text(_)
    )
}

fn element_at(arena: &mut Arena, place: Place, whole: Ref, index: Value, steps: &mut u64) -> Given
    requires { Owns (seen arena.old) (value.Fragment whole) }
    ensures { Gives (by_place place (element_at place (children_at (seen arena.old) whole)) (value_of (seen arena.old) index) (state_in (seen arena.old) steps.old)) result (seen arena.old) (seen arena.new) steps.new }
{
    match index {
        Value::Int(index) => match place_among(fragment_length(arena, whole) as u128, index) {
            Some(at) => member_value(arena, place, whole, at as usize, steps),
            None => Err(refusal(arena, FaultKind::IndexRange, place)),
        },
        _ => Err(refusal(arena, FaultKind::ValueKind, place)),
    }
}
