// A list that is extended in place.
ghost use Rattle.std.specs.Prelude.{◌≡◌, ◌+◌};
ghost use Rattle.star_steps.specs.Names.{IfOk, Some, true, keys_in, members_in, take_steps, pairs_at, extend_row, seen, Owns, OwnsAll, value_of, values_of, Gives, Meets, as_is, state_in};
ghost use Rattle.star_values.specs.declared.value.Value.TheVariants as value;
ghost use Rattle.star_ops.specs.Acts.{first_parts, is_iterable};

use crate::truths::member_count;
use indexmap::map::Slice;
use object_arena::{Arena, Ref, Value, Values};
use sqlite_items::Items;
use star_compare::bounds;
use star_integers::{number_at, range_count};
use star_steps::{Given, Paid, pay, refusal, stop_at, tuple_members};
use std::alloc::Global;
use ytt_base::fault::{FaultKind, Place};
use ytt_base::text::Memory;

/// The members of a value behind those of a list, which is given. It refuses with `Frozen` and `Iterating`, then with `ValueKind` where the
/// value has no members. It takes the members of both as steps.
pub fn extend(arena: &mut Arena, place: Place, list: Ref, more: Value, steps: &mut u64) -> Given
    requires list { Owns (seen arena.old) (value.List list) }
    requires more { Owns (seen arena.old) more }
    ensures { Gives (extend_row place list.at (value_of (seen arena.old) more) (state_in (seen arena.old) steps.old)) result (seen arena.old) (seen arena.new) steps.new }
{
    if let Err(stop) = arena.may_change(list) {
        return Err(stop_at(arena, stop, place));
    }
    if !has_members(more) {
        return Err(refusal(arena, FaultKind::ValueKind, place));
    }
    let first = arena.list(list).len();
    pay_both(arena, place, first, member_count(arena, more), steps)?;
    let members = members_of(arena, more)?;
    match arena.list_extend(list, members.as_slice()) {
        Ok(()) => Ok(Value::List(list)),
        Err(stop) => Err(stop_at(arena, stop, place)),
    }
}

/// Takes 1 for each of two counts. A sum past every budget is `Steps` at once.
fn pay_both(arena: &Arena, place: Place, first: usize, second: u128, steps: &mut u64) -> Paid
    ensures { Meets as_is result (state_in (seen arena.now) steps.new) (take_steps (first + second) place (state_in (seen arena.now) steps.old)) }
{
    match (first as u128).checked_add(second) {
        // No budget has so many steps.
        None => {
            let _budget = *steps;
            Err(refusal(arena, FaultKind::Steps, place))
        }
        Some(all) => pay(arena, place, all, steps),
    }
}

/// Whether a value has members to go through.
fn has_members(value: Value) -> bool
    ensures { result ≡ is_iterable value }
{
    matches!(
        value,
        Value::Tuple(_) | Value::List(_) | Value::Dict(_) | Value::Range(_)
    )
}

/// The members of a value that has some: those of a tuple or list, the keys of a dict, the numbers of a range.
pub fn members_of(arena: &Arena, value: Value) -> Result<Values, Memory>
    requires owned { Owns (seen arena.now) value }
    requires kind { is_iterable value ≡ true }
    ensures members { IfOk result (λ vs. members_in (seen arena.now).store (value_of (seen arena.now) value) ≡ Some (values_of (seen arena.now) vs)) }
    ensures owns { IfOk result (OwnsAll (seen arena.now)) }
{
    match value {
        Value::Tuple(tuple) => Ok(Items::from_slice(arena.alloc(), tuple_members(arena, tuple))?),
        Value::List(list) => Ok(Items::from_slice(arena.alloc(), arena.list(list))?),
        Value::Dict(dict) => keys(arena, dict),
        Value::Range(range) => numbers(arena, range),
        _ => unreachable!(),
    }
}

/// The keys of a dict.
fn keys(arena: &Arena, dict: Ref) -> Result<Values, Memory>
    requires { Owns (seen arena.now) (value.Dict dict) }
    ensures keys { IfOk result (λ vs. keys_in (pairs_at dict.at (seen arena.now).store) ≡ values_of (seen arena.now) vs) }
    ensures owns { IfOk result (OwnsAll (seen arena.now)) }
{
    let keys = first_parts(arena.alloc(), arena.pairs(dict))?;
    Ok(keys)
}

fn first_parts(alloc: Global, pairs: Slice<'_, Value, Value>) -> Result<Values, Memory>
    ensures { IfOk result (λ vs. vs ≡ first_parts pairs.entry) }
{
    let mut firsts = Items::new(alloc);
    let mut rest = pairs;
    while let Some(((key, _), more)) = rest.split_first() {
        firsts.push(*key)?;
        rest = more;
    }
    Ok(firsts)
}

/// The numbers of a range, of which no more than are paid for are made.
fn numbers(arena: &Arena, range: Ref) -> Result<Values, Memory>
    requires { Owns (seen arena.now) (value.Range range) }
    ensures numbers { IfOk result (λ vs. members_in (seen arena.now).store (value_of (seen arena.now) (value.Range range)) ≡ Some (values_of (seen arena.now) vs)) }
    ensures owns { IfOk result (OwnsAll (seen arena.now)) }
{
    let (from, to, step) = bounds(arena, range);
    let mut numbers = Items::new(arena.alloc());
    for place in 0..range_count(from, to, step) {
        numbers.push(Value::Int(number_at(from, step, place)))?;
    }
    Ok(numbers)
}
