// The sizes of values that have a rank, and of keys.
ghost use Rattle.std.specs.Prelude.{◌≡◌};
ghost use Rattle.star_steps.specs.Names.{OnOk, paid, each_sized, key_sized, max_depth, measured_within, rank, IsKeyWithin, seen, Owns, OwnsAll, View, value_of, values_of, Meets, as_is, state_in};
ghost use Rattle.star_compare.specs.Alike.{measure};

use object_arena::{Arena, Value};
use star_steps::{Depth, Paid, pay, refusal, tuple_members};
use ytt_base::fault::{FaultKind, Place};

/// How many collections may stand in one another.
pub(crate) const MAX_DEPTH: u32 = 100;

/// The ranks that keys have: None, bool, int, text, tuple.
const KEY_RANKS: u8 = 5;

/// The ranks of what has an order: those of keys, and lists.
pub(crate) const ORDERED_RANKS: u8 = 6;

/// None, bool, int, text, tuple, list; all else has no rank, which is 6.
pub fn rank_of(value: Value) -> u8
    ensures { (a : View) → result ≡ rank (value_of a value) }
{
    match value {
        Value::None => 0,
        Value::Bool(_) => 1,
        Value::Int(_) => 2,
        Value::Text(_) => 3,
        Value::Tuple(_) => 4,
        Value::List(_) => 5,
        _ => 6,
    }
}

/// Takes the size of a value as steps, where collections may nest so many levels: a sixteenth of a text's bytes, and 1 with
/// the size of each member of a tuple or list. A value past the ranks that may be is `ValueKind`.
#[cycle(size)]
#[tactic(auto, unfolding(crate::specs::Alike::measure))]
pub fn pay_size(arena: &Arena, at: Depth, ranks: u8, value: Value, steps: &mut u64) -> Paid
    requires { Owns (seen arena.now) value }
    ensures { Meets as_is result (state_in (seen arena.now) steps.new) (measure ranks at.levels at.place (value_of (seen arena.now) value) (state_in (seen arena.now) steps.old)) }
{
    match value {
        Value::Text(text) => {
            let bytes = arena.text(text).as_str().len() as u128;
            pay(arena, at.place, bytes / 16, steps)
        }
        Value::Tuple(tuple) => pay_members(arena, at, ranks, tuple_members(arena, tuple), steps),
        Value::List(list) => {
            if ranks <= 5 {
                return Err(refusal(arena, FaultKind::ValueKind, at.place));
            }
            pay_members(arena, at, ranks, arena.list(list), steps)
        }
        _ => {
            if rank_of(value) >= ranks {
                return Err(refusal(arena, FaultKind::ValueKind, at.place));
            }
            Ok(())
        }
    }
}

#[cycle(size)]
fn pay_members(arena: &Arena, at: Depth, ranks: u8, values: &[Value], steps: &mut u64) -> Paid
    requires { OwnsAll (seen arena.now) values.now }
    ensures { Meets as_is result (state_in (seen arena.now) steps.new) (measured_within ranks at.levels at.place (values_of (seen arena.now) values.now) (state_in (seen arena.now) steps.old)) }
{
    if at.levels == 0 {
        return Err(refusal(arena, FaultKind::TooDeep, at.place));
    }
    let mut inside = at;
    inside.levels -= 1;
    pay_each(arena, inside, ranks, values, steps)
}

#[cycle(size)]
fn pay_each(arena: &Arena, at: Depth, ranks: u8, values: &[Value], steps: &mut u64) -> Paid
    requires { OwnsAll (seen arena.now) values.now }
    ensures { Meets as_is result (state_in (seen arena.now) steps.new) (each_sized (measure ranks at.levels at.place) at.place (values_of (seen arena.now) values.now) (state_in (seen arena.now) steps.old)) }
{
    let mut rest = values;
    while let [first, more @ ..] = rest {
        pay_member(arena, at, ranks, *first, steps)?;
        rest = more;
    }
    Ok(())
}

#[cycle(size)]
fn pay_member(arena: &Arena, at: Depth, ranks: u8, value: Value, steps: &mut u64) -> Paid
    requires { Owns (seen arena.now) value }
    ensures { Meets as_is result (state_in (seen arena.now) steps.new) (paid at.place (measure ranks at.levels at.place (value_of (seen arena.now) value)) (state_in (seen arena.now) steps.old)) }
{
    pay(arena, at.place, 1, steps)?;
    pay_size(arena, at, ranks, value, steps)
}

/// Takes the size of a value that has an order as steps. What has none, and what stands in it and has none, is `ValueKind`; collections
/// that nest too deep are `TooDeep`.
pub fn order_size(arena: &Arena, place: Place, value: Value, steps: &mut u64) -> Paid
    requires { Owns (seen arena.now) value }
    ensures { Meets as_is result (state_in (seen arena.now) steps.new) (measure 6 max_depth place (value_of (seen arena.now) value) (state_in (seen arena.now) steps.old)) }
{
    let levels = MAX_DEPTH;
    let at = Depth { place, levels };
    pay_size(arena, at, ORDERED_RANKS, value, steps)
}

/// Takes the size of a key as steps, at its operator. What is no key is `ValueKind`, and tuples that nest too deep are `TooDeep`.
pub fn key_size(arena: &Arena, place: Place, key: Value, steps: &mut u64) -> Paid
    requires { Owns (seen arena.now) key }
    ensures meaning { Meets as_is result (state_in (seen arena.now) steps.new) (key_sized place (value_of (seen arena.now) key) (state_in (seen arena.now) steps.old)) }
    ensures key { OnOk result (IsKeyWithin 100 (value_of (seen arena.now) key)) }
{
    let levels = MAX_DEPTH;
    let at = Depth { place, levels };
    pay_size(arena, at, KEY_RANKS, key, steps)
}
