// Functions of the members of a value.
ghost use Rattle.std.specs.Prelude.{◌≡◌, ◌*◌, [], IfOk, reverse, if◌then◌else◌};
ghost use Rattle.builtin_spec.specs.Builtins.{all_true, list_row, members_paid, reversed_row, some_true, test_row, tuple_row};
ghost use Rattle.operator_spec.specs.Operators.{tuple_of};
ghost use Rattle.star_ops.specs.Acts.{is_iterable};
ghost use Rattle.star_steps.specs.Names.{Gives, Meets, Owns, OwnsAll, as_is, give, new_list, seen, state_in, take_steps, value_of, values_of};

use object_arena::{Arena, Value, Values};
use sqlite_items::Items;
use star_ops::{member_count, members_of, truth};
use star_steps::{Given, Paid, pay, refusal};
use std::alloc::Global;
use ytt_base::fault::{FaultKind, Place, Stop};
use ytt_base::text::Memory;

/// Whether a value has members to go through.
pub(crate) fn has_members(value: Value) -> bool
    ensures { result ≡ is_iterable value }
{
    matches!(
        value,
        Value::Tuple(_) | Value::List(_) | Value::Dict(_) | Value::Range(_)
    )
}

/// Takes so many times a count as steps. A product past every budget is `Steps` at once.
fn pay_times(arena: &Arena, steps: &mut u64, times: u128, count: u128, at: Place) -> Paid
    ensures { Meets as_is result (state_in (seen arena.now) steps.new) (take_steps (times * count) at (state_in (seen arena.now) steps.old)) }
{
    match times.checked_mul(count) {
        // No budget has so many steps.
        None => {
            let _budget = *steps;
            Err(refusal(arena, FaultKind::Steps, at))
        }
        Some(all) => pay(arena, at, all, steps),
    }
}

/// The members of a value, after so many times their number of steps; `ValueKind` where it has none to have.
pub(crate) fn members_paid(
    arena: &Arena,
    steps: &mut u64,
    value: Value,
    times: u128,
    at: Place,
) -> Result<Values, Stop>
    requires { Owns (seen arena.now) value }
    ensures meaning { Meets (values_of (seen arena.now)) result (state_in (seen arena.now) steps.new) (members_paid times at (value_of (seen arena.now) value) (state_in (seen arena.now) steps.old)) }
    ensures owns { IfOk result (OwnsAll (seen arena.now)) }
{
    if !has_members(value) {
        return Err(refusal(arena, FaultKind::ValueKind, at));
    }
    pay_times(arena, steps, times, member_count(arena, value), at)?;
    Ok(members_of(arena, value)?)
}

/// A new list of the members of a value, or of none where no value is given.
pub(crate) fn list(
    arena: &mut Arena,
    steps: &mut u64,
    given: bool,
    value: Value,
    at: Place,
) -> Given
    requires { Owns (seen arena.old) value }
    ensures { Gives ((if given then list_row at (value_of (seen arena.old) value) else new_list []) (state_in (seen arena.old) steps.old)) result (seen arena.old) (seen arena.new) steps.new }
{
    if !given {
        return Ok(arena.new_list(&[])?);
    }
    let members = members_paid(arena, steps, value, 2, at)?;
    Ok(arena.new_list(members.as_slice())?)
}

/// A tuple of the members of a value, or of none where no value is given.
pub(crate) fn tuple(
    arena: &mut Arena,
    steps: &mut u64,
    given: bool,
    value: Value,
    at: Place,
) -> Given
    requires { Owns (seen arena.old) value }
    ensures { Gives ((if given then tuple_row at (value_of (seen arena.old) value) else give (tuple_of [])) (state_in (seen arena.old) steps.old)) result (seen arena.old) (seen arena.new) steps.new }
{
    if !given {
        return Ok(arena.new_tuple(&[])?);
    }
    let members = members_paid(arena, steps, value, 2, at)?;
    Ok(arena.new_tuple(members.as_slice())?)
}

/// A new list of the members of a value, the last one first.
pub(crate) fn reversed(arena: &mut Arena, steps: &mut u64, value: Value, at: Place) -> Given
    requires { Owns (seen arena.old) value }
    ensures { Gives (reversed_row at (value_of (seen arena.old) value) (state_in (seen arena.old) steps.old)) result (seen arena.old) (seen arena.new) steps.new }
{
    let members = members_paid(arena, steps, value, 2, at)?;
    let turned = turned_round(arena.alloc(), members)?;
    Ok(arena.new_list(turned.as_slice())?)
}

/// These values, the last one first.
fn turned_round(alloc: Global, members: Values) -> Result<Values, Memory>
    ensures { IfOk result (λ vs. vs ≡ reverse members) }
{
    let mut left = members;
    let mut turned = Items::new(alloc);
    while let Some(member) = left.pop() {
        turned.push(member)?;
    }
    Ok(turned)
}

/// Whether a member of a value is true.
pub(crate) fn any(arena: &Arena, steps: &mut u64, value: Value, at: Place) -> Given
    requires { Owns (seen arena.now) value }
    ensures { Gives (test_row some_true at (value_of (seen arena.now) value) (state_in (seen arena.now) steps.old)) result (seen arena.now) (seen arena.now) steps.new }
{
    let members = members_paid(arena, steps, value, 1, at)?;
    Ok(Value::Bool(some_true(arena, members.as_slice())))
}

/// Whether each member of a value is true.
pub(crate) fn all(arena: &Arena, steps: &mut u64, value: Value, at: Place) -> Given
    requires { Owns (seen arena.now) value }
    ensures { Gives (test_row all_true at (value_of (seen arena.now) value) (state_in (seen arena.now) steps.old)) result (seen arena.now) (seen arena.now) steps.new }
{
    let members = members_paid(arena, steps, value, 1, at)?;
    Ok(Value::Bool(all_true(arena, members.as_slice())))
}

fn some_true(arena: &Arena, members: &[Value]) -> bool
    requires { OwnsAll (seen arena.now) members.now }
    ensures { result ≡ some_true (seen arena.now).store (values_of (seen arena.now) members.now) }
{
    let mut rest = members;
    while let [first, more @ ..] = rest {
        if truth(arena, *first) {
            return true;
        }
        rest = more;
    }
    false
}

fn all_true(arena: &Arena, members: &[Value]) -> bool
    requires { OwnsAll (seen arena.now) members.now }
    ensures { result ≡ all_true (seen arena.now).store (values_of (seen arena.now) members.now) }
{
    let mut rest = members;
    while let [first, more @ ..] = rest {
        if !truth(arena, *first) {
            return false;
        }
        rest = more;
    }
    true
}
