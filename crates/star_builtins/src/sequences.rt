// Functions that make tuples of the members of values.
ghost use Rattle.std.specs.Int.{w128};
ghost use Rattle.std.specs.Prelude.{◌≡◌, ◌∷◌, ◌+◌, ◌^◌, ◌+ℤ◌, ◌<◌, ◌≤◌, ℕ, FitsSigned, IfOk, MatchOption, drop, length, map as each, min, pos, true};
ghost use Rattle.builtin_spec.specs.Builtins.{all_have_members, enumerate_row, firsts, last_fits, least_of, members_or_none, numbered, sum_of, zip_row, zipped};
ghost use Rattle.star_steps.specs.Names.{Each, Gives, Grows, Meets, Owns, OwnsAll, as_is, members_in, seen, state_in, value_of, values_of};
ghost use Rattle.star_values.specs.Owns.{OwnsArguments};
ghost use Rattle.star_values.specs.View.{View, arguments_in};
ghost use Rattle.star_builtins.specs.Turns.{counts_of, turns_paid};
ghost use Rattle.value_spec.specs.Values.{arguments, no_fields, values_from};

use crate::lists::bound;
use crate::members::{has_members, members_paid};
use object_arena::{Arena, CallArgs, Value, Values};
use sqlite_items::Items;
use star_ops::{member_count, members_of};
use star_steps::{Given, pay, refusal};
use std::alloc::Global;
use ytt_base::fault::{FaultKind, Place, Stop};
use ytt_base::text::Memory;

/// A new list of the members of a value with their numbers, from 0 or from a start on: `ValueKind` where the start is no integer or
/// the value has no members to have, `IntOverflow` where the last number has more than 128 bits.
pub(crate) fn enumerate(
    arena: &mut Arena,
    steps: &mut u64,
    value: Value,
    start: Value,
    at: Place,
) -> Given
    requires value { Owns (seen arena.old) value }
    ensures { Gives (enumerate_row at (value_of (seen arena.old) value) (value_of (seen arena.old) start) (state_in (seen arena.old) steps.old)) result (seen arena.old) (seen arena.new) steps.new }
{
    let from = match bound(start) {
        Some(from) => from.unwrap_or(0),
        None => return Err(refusal(arena, FaultKind::ValueKind, at)),
    };
    let members = members_paid(arena, steps, value, 2, at)?;
    if !last_fits(from, members.as_slice()) {
        return Err(refusal(arena, FaultKind::IntOverflow, at));
    }
    let tuples = numbered(arena, from, members.as_slice())?;
    Ok(arena.new_list(tuples.as_slice())?)
}

/// Whether the number of the last member, if there is one, has 128 bits.
fn last_fits(start: i128, members: &[Value]) -> bool
    ensures { (a : View) → result ≡ last_fits start (values_of a members.now) }
{
    match members.split_first() {
        None => true,
        Some((_, more)) => start.checked_add(more.len() as i128).is_some(),
    }
}

/// The members with their numbers, in tuples.
fn numbered(arena: &mut Arena, start: i128, members: &[Value]) -> Result<Values, Memory>
    requires owned { OwnsAll (seen arena.old) members.now }
    requires fits { (i : ℕ) → i < length members.now → FitsSigned w128 (start +ℤ pos i) }
    ensures values { IfOk result (λ vs. values_of (seen arena.new) vs ≡ numbered start (values_of (seen arena.old) members.now)) }
    ensures owns { IfOk result (OwnsAll (seen arena.new)) }
    ensures store { (seen arena.new).store ≡ (seen arena.old).store }
    ensures grows { Grows (seen arena.old) (seen arena.new) }
{
    let mut tuples = Items::new(arena.alloc());
    let mut place: usize = 0;
    let mut rest = members;
    while let Some((first, more)) = rest.split_first() {
        let tuple = arena.new_tuple(&[Value::Int(start + place as i128), *first])?;
        tuples.push(tuple)?;
        place += 1;
        rest = more;
    }
    Ok(tuples)
}

/// A new list of tuples, the first of the first members of values, the second of their second ones, as many as the value with the fewest
/// members has: `ArgBind` of an argument by name, `ValueKind` of what has no members to have.
pub(crate) fn zip(arena: &mut Arena, steps: &mut u64, args: &CallArgs, at: Place) -> Given
    requires { OwnsArguments (seen arena.old) args.now }
    ensures { Gives (zip_row at (arguments_in (seen arena.old).held args.now) (state_in (seen arena.old) steps.old)) result (seen arena.old) (seen arena.new) steps.new }
{
    match args.named.as_slice().split_first() {
        None => zip_values(arena, steps, args.positional.as_slice(), at),
        Some(_) => Err(refusal(arena, FaultKind::ArgBind, at)),
    }
}

/// The same of arguments by position alone.
fn zip_values(arena: &mut Arena, steps: &mut u64, values: &[Value], at: Place) -> Given
    requires { OwnsAll (seen arena.old) values.now }
    ensures { Gives (zip_row at (arguments (values_from (values_of (seen arena.old) values.now)) no_fields) (state_in (seen arena.old) steps.old)) result (seen arena.old) (seen arena.new) steps.new }
{
    if !all_have_members(arena, values) {
        return Err(refusal(arena, FaultKind::ValueKind, at));
    }
    let count = turns_paid(arena, steps, values, at)?;
    let lists = members_of_each(arena, values)?;
    let tuples = zipped(arena, lists.as_slice(), count)?;
    Ok(arena.new_list(tuples.as_slice())?)
}

/// Whether each value has members to go through.
fn all_have_members(arena: &Arena, values: &[Value]) -> bool
    ensures { result ≡ all_have_members (seen arena.now).store (values_of (seen arena.now) values.now) }
{
    let _arena = arena;
    let mut rest = values;
    while let [first, more @ ..] = rest {
        if !has_members(*first) {
            return false;
        }
        rest = more;
    }
    true
}

/// How many tuples there are, after a step for each member of each value and for each tuple.
fn turns_paid(arena: &Arena, steps: &mut u64, values: &[Value], at: Place) -> Result<usize, Stop>
    requires { OwnsAll (seen arena.now) values.now }
    ensures { Meets as_is result (state_in (seen arena.now) steps.new) (turns_paid at (counts_of (seen arena.now) values.now) (state_in (seen arena.now) steps.old)) }
{
    let _budget = *steps;
    let least = least_count(arena, values);
    match with_counts(arena, values, least) {
        // No budget has so many steps.
        None => Err(refusal(arena, FaultKind::Steps, at)),
        Some(all) => {
            pay(arena, at, all, steps)?;
            Ok(least as usize)
        }
    }
}

/// How many members the value with the fewest has; 0 where there is no value.
fn least_count(arena: &Arena, values: &[Value]) -> u128
    requires { OwnsAll (seen arena.now) values.now }
    ensures { result ≡ least_of (counts_of (seen arena.now) values.now) }
{
    match values.split_first() {
        None => 0,
        Some((first, more)) => least_with(arena, member_count(arena, *first), more),
    }
}

/// The least of a number and the counts of members of values.
fn least_with(arena: &Arena, number: u128, values: &[Value]) -> u128
    requires { OwnsAll (seen arena.now) values.now }
    ensures { result ≡ least_of (number ∷ counts_of (seen arena.now) values.now) }
{
    let mut least = number;
    let mut rest = values;
    while let Some((first, more)) = rest.split_first() {
        least = lesser(least, member_count(arena, *first));
        rest = more;
    }
    least
}

/// The lesser of two numbers.
fn lesser(left: u128, right: u128) -> u128
    ensures { result ≡ min left right }
{
    if left < right { left } else { right }
}

/// A number and the counts of members of values together, or `None` where that has more than 128 bits.
fn with_counts(arena: &Arena, values: &[Value], number: u128) -> Option<u128>
    requires { OwnsAll (seen arena.now) values.now }
    ensures { MatchOption result (2 ^ 128 ≤ sum_of (counts_of (seen arena.now) values.now) + number) (λ n. n ≡ sum_of (counts_of (seen arena.now) values.now) + number) }
{
    let mut sum = number;
    let mut rest = values;
    while let Some((first, more)) = rest.split_first() {
        match sum.checked_add(member_count(arena, *first)) {
            None => return None,
            Some(all) => sum = all,
        }
        rest = more;
    }
    Some(sum)
}

/// The members of each value.
fn members_of_each(arena: &Arena, values: &[Value]) -> Result<Items<Values>, Memory>
    requires owned { OwnsAll (seen arena.now) values.now }
    requires kinds { all_have_members (seen arena.now).store (values_of (seen arena.now) values.now) ≡ true }
    ensures members { IfOk result (λ vss. each (λ v. members_or_none (members_in (seen arena.now).store v)) (values_of (seen arena.now) values.now) ≡ each (values_of (seen arena.now)) vss) }
    ensures owns { IfOk result (Each (OwnsAll (seen arena.now))) }
{
    let mut lists = Items::new(arena.alloc());
    let mut rest = values;
    while let Some((first, more)) = rest.split_first() {
        lists.push(members_of(arena, *first)?)?;
        rest = more;
    }
    Ok(lists)
}

/// So many tuples, each of the next member of each list.
fn zipped(arena: &mut Arena, lists: &[Values], count: usize) -> Result<Values, Memory>
    requires { Each (OwnsAll (seen arena.old)) lists.now }
    ensures values { IfOk result (λ vs. values_of (seen arena.new) vs ≡ zipped count (each (values_of (seen arena.old)) lists.now)) }
    ensures owns { IfOk result (OwnsAll (seen arena.new)) }
    ensures store { (seen arena.new).store ≡ (seen arena.old).store }
    ensures grows { Grows (seen arena.old) (seen arena.new) }
{
    let mut tuples = Items::new(arena.alloc());
    for place in 0..count {
        let parts = parts_at(arena.alloc(), lists, place)?;
        let tuple = arena.new_tuple(parts.as_slice())?;
        tuples.push(tuple)?;
    }
    Ok(tuples)
}

/// The members at a place, of those lists that have one.
fn parts_at(alloc: Global, lists: &[Values], place: usize) -> Result<Values, Memory>
    ensures values { (a : View) → IfOk result (λ vs. values_of a vs ≡ firsts (each (drop place) (each (values_of a) lists.now))) }
    ensures owns { (a : View) → Each (OwnsAll a) lists.now → IfOk result (OwnsAll a) }
{
    let mut parts = Items::new(alloc);
    let mut rest = lists;
    while let Some((first, more)) = rest.split_first() {
        if let Some(part) = first.as_slice().get(place) {
            parts.push(*part)?;
        }
        rest = more;
    }
    Ok(parts)
}
