// What is wanted of members with their keys.
ghost use Rattle.std.specs.Prelude.{◌≡◌, ◌≤◌, ℕ, false, get_or, true};
ghost use Rattle.star_sorting.specs.View.{wanted_of};
ghost use Rattle.builtin_spec.specs.Sorting.{all_sized, are_of_one_kind, binary_digits, chosen, in_order, steps_for, wanted_row};
ghost use Rattle.star_steps.specs.Names.{Gives, Meets, Place, OwnsAll, View, as_is, seen, state_in, values_of};

use crate::order::{first_alone, in_order};
use object_arena::{Arena, Value};
use star_compare::{comparable, order_size};
use star_steps::{Given, Paid, pay, refusal};
use ytt_base::fault::{FaultKind, Place};

/// What is wanted of members in the order of their keys: the first one alone, or all; and whether the greatest stands first.
#[derive(Clone, Copy)]
pub struct Wanted {
    pub first_alone: bool,
    pub descending: bool,
}

/// What is wanted of members with these keys: `ValueKind` where the keys aren't all of one kind that has an order, or the first of none is
/// wanted; it takes the sizes of the keys, and a step for each member where the first alone is wanted, else one for each member and each
/// binary digit of their number.
pub fn choose(
    arena: &mut Arena,
    steps: &mut u64,
    wanted: Wanted,
    members: &[Value],
    keys: &[Value],
    at: Place,
) -> Given
    requires members { OwnsAll (seen arena.old) members.now }
    requires keys { OwnsAll (seen arena.old) keys.now }
    ensures { Gives (wanted_row at (wanted_of wanted) (values_of (seen arena.old) members.now) (values_of (seen arena.old) keys.now) (state_in (seen arena.old) steps.old)) result (seen arena.old) (seen arena.new) steps.new }
{
    if !of_one_kind(keys) {
        return Err(refusal(arena, FaultKind::ValueKind, at));
    }
    pay_sizes(arena, steps, keys, at)?;
    pay(arena, at, steps_of(wanted, members.len()), steps)?;
    if wanted.first_alone {
        first_alone(arena, wanted.descending, members, keys, at)
    } else {
        all_in_order(arena, wanted.descending, members, keys)
    }
}

/// Whether values are all of one kind, which has an order.
fn of_one_kind(values: &[Value]) -> bool
    ensures { (a : View) → result ≡ are_of_one_kind (values_of a values.now) }
{
    let mut rest = values;
    while let Some((first, more)) = rest.split_first() {
        let next = *more.first().unwrap_or(first);
        if !comparable(*first, next) {
            return false;
        }
        rest = more;
    }
    true
}

/// Takes the size of each value as steps.
#[tactic(auto, using(crate::proofs::Choosing::sizes_begin))]
fn pay_sizes(arena: &Arena, steps: &mut u64, values: &[Value], at: Place) -> Paid
    requires { OwnsAll (seen arena.now) values.now }
    ensures { Meets as_is result (state_in (seen arena.now) steps.new) (all_sized at (values_of (seen arena.now) values.now) (state_in (seen arena.now) steps.old)) }
{
    let mut rest = values;
    while let Some((first, more)) = rest.split_first() {
        order_size(arena, at, *first, steps)?;
        rest = more;
    }
    Ok(())
}

/// A step for each of so many members where the first alone is wanted, else one for each member and each binary digit of their number.
fn steps_of(wanted: Wanted, count: usize) -> u128
    ensures { result ≡ steps_for (wanted_of wanted) count }
{
    if wanted.first_alone {
        count as u128
    } else {
        count as u128 * digits_of(count) as u128
    }
}

/// How many binary digits a number has; 0 has none.
#[tactic(auto, using(crate::proofs::Choosing::digits_half, crate::proofs::Choosing::digits_few))]
fn digits_of(number: usize) -> usize
    ensures digits { result ≡ binary_digits number }
    ensures few { result ≤ number }
{
    let mut digits = 0;
    let mut left = number;
    while left > 0 {
        left /= 2;
        digits += 1;
    }
    digits
}

/// A new list of the members in the order of their keys.
fn all_in_order(arena: &mut Arena, descending: bool, members: &[Value], keys: &[Value]) -> Given
    requires members { OwnsAll (seen arena.old) members.now }
    requires keys { OwnsAll (seen arena.old) keys.now }
    ensures { (p : Place) (n : ℕ) → Gives (chosen p false (in_order descending (seen arena.old).store (values_of (seen arena.old) members.now) (values_of (seen arena.old) keys.now)) (state_in (seen arena.old) n)) result (seen arena.old) (seen arena.new) n }
{
    let sorted = in_order(arena, descending, members, keys)?;
    Ok(arena.new_list(sorted.as_slice())?)
}
