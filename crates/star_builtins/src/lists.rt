// The methods of lists.
ghost use Rattle.std.specs.Prelude.{◌≡◌, ◌+◌, ◌<◌, ◌≤◌, ℕ, Some, drop, false, length, option_map, take, true};
ghost use Rattle.index_spec.specs.Index.{place_among};
ghost use Rattle.builtin_spec.specs.Lists.{append_row, equal_from, extending_row, index_of_row, insert_row, pop_row, remove_row};
ghost use Rattle.star_steps.specs.Names.{Gives, Meets, Owns, OwnsAll, as_is, none_value, seen, state_in, value_of, values_of};
ghost use Rattle.star_values.specs.View.{View};
ghost use Rattle.star_values.specs.declared.value.Value.TheVariants as value;
ghost use Rattle.star_builtins.specs.Changes.{IsBound};
ghost use Rattle.star_builtins.specs.View.{list_method_gives};
ghost use Rattle.value_spec.specs.Outcomes.{acting, paid_by};
ghost use Rattle.value_spec.specs.Store.{list_remove};

use crate::changes::{changed, clear};
use crate::table::ListMethod;
use object_arena::{Arena, Ref, Value, Work};
use star_compare::equal;
use star_steps::{Given, pay, refusal, stop_at};
use star_text::{argument, pay_operation, place_of};
use star_tree::code::BinOp;
use ytt_base::fault::{FaultKind, Place, Stop};

/// What a method of a list gives for the values of its parameters.
pub(crate) fn apply_to_list(
    arena: &mut Arena,
    work: &mut Work,
    method: ListMethod,
    list: Ref,
    given: bool,
    values: &[Value],
    at: Place,
) -> Given
    requires list { Owns (seen arena.old) (value.List list) }
    requires values { OwnsAll (seen arena.old) values.now }
    ensures row { Gives (list_method_gives list.at method given at (values_of (seen arena.old) values.now) (state_in (seen arena.old) work.old.steps)) result (seen arena.old) (seen arena.new) work.new.steps }
    ensures depth { work.new.depth ≡ work.old.depth }
{
    let first = argument(arena, values, 0);
    match method {
        ListMethod::Append => append(arena, list, first, at),
        ListMethod::Clear => clear(arena, &mut work.steps, list, Value::List(list), at),
        ListMethod::Extend => extend(arena, work, list, first, at),
        ListMethod::Index => {
            let bounds = (argument(arena, values, 1), argument(arena, values, 2));
            index(arena, &mut work.steps, list, first, bounds, at)
        }
        ListMethod::Insert => {
            let member = argument(arena, values, 1);
            insert(arena, &mut work.steps, list, first, member, at)
        }
        ListMethod::Pop => {
            if given {
                pop_at(arena, &mut work.steps, list, first, at)
            } else {
                pop_last(arena, list, at)
            }
        }
        ListMethod::Remove => remove(arena, &mut work.steps, list, first, at),
    }
}

/// A value behind the members.
fn append(arena: &mut Arena, list: Ref, member: Value, at: Place) -> Given
    requires list { Owns (seen arena.old) (value.List list) }
    requires member { Owns (seen arena.old) member }
    ensures { (n : ℕ) → Gives (append_row at list.at (value_of (seen arena.old) member) (state_in (seen arena.old) n)) result (seen arena.old) (seen arena.new) n }
{
    let done = arena.list_push(list, member);
    changed(arena, done, at)
}

/// The members of a value behind those of the list.
fn extend(arena: &mut Arena, work: &mut Work, list: Ref, more: Value, at: Place) -> Given
    requires list { Owns (seen arena.old) (value.List list) }
    requires more { Owns (seen arena.old) more }
    ensures row { Gives (extending_row at list.at (value_of (seen arena.old) more) (state_in (seen arena.old) work.old.steps)) result (seen arena.old) (seen arena.new) work.new.steps }
    ensures depth { work.new.depth ≡ work.old.depth }
{
    star_ops::augment(arena, work, BinOp::Add, Value::List(list), more, at)?;
    Ok(Value::None)
}

/// A bound of a search: None, or an integer.
pub(crate) fn bound(value: Value) -> Option<Option<i128>>
    ensures { (a : View) → IsBound result (value_of a value) }
{
    match value {
        Value::None => Some(None),
        Value::Int(number) => Some(Some(number)),
        _ => None,
    }
}

/// The place of the first member that equals a value, between two places.
fn index(
    arena: &Arena,
    steps: &mut u64,
    list: Ref,
    sought: Value,
    bounds: (Value, Value),
    at: Place,
) -> Given
    requires list { Owns (seen arena.now) (value.List list) }
    requires sought { Owns (seen arena.now) sought }
    ensures { Gives (index_of_row at list.at (value_of (seen arena.now) sought) (value_of (seen arena.now) bounds.0) (value_of (seen arena.now) bounds.1) (state_in (seen arena.now) steps.old)) result (seen arena.now) (seen arena.now) steps.new }
{
    let (from, to) = match (bound(bounds.0), bound(bounds.1)) {
        (Some(from), Some(to)) => (from, to),
        _ => return Err(refusal(arena, FaultKind::ValueKind, at)),
    };
    let members = arena.list(list);
    let count = members.len();
    let first = place_of(count, from.unwrap_or(0));
    let end = place_of(count, to.unwrap_or(count as i128));
    match find(arena, steps, sought, between(members, first, end), 1, at)? {
        Some(place) => Ok(Value::Int(first as i128 + place as i128)),
        None => Err(refusal(arena, FaultKind::KeyMissing, at)),
    }
}

/// The members from one place to another.
fn between(members: &[Value], from: usize, to: usize) -> &[Value]
    requires { to ≤ length members.now }
    ensures { result.now ≡ drop from (take to members.now) }
{
    if from < to { &members[from..to] } else { &[] }
}

/// The place of the first of these members that equals a value, which takes an equality and so many steps for each.
fn find(
    arena: &Arena,
    steps: &mut u64,
    sought: Value,
    members: &[Value],
    each: u64,
    at: Place,
) -> Result<Option<usize>, Stop>
    requires sought { Owns (seen arena.now) sought }
    requires members { OwnsAll (seen arena.now) members.now }
    ensures { (from : ℕ) → Meets (option_map (λ i. from + i)) result (state_in (seen arena.now) steps.new) (equal_from (paid_by each at) at (value_of (seen arena.now) sought) (values_of (seen arena.now) members.now) from (state_in (seen arena.now) steps.old)) }
{
    let mut place = 0;
    let mut rest = members;
    while let Some((first, more)) = rest.split_first() {
        pay(arena, at, u128::from(each), steps)?;
        if equal(arena, at, *first, sought, steps)? {
            return Ok(Some(place));
        }
        place += 1;
        rest = more;
    }
    Ok(None)
}

/// A value in front of the member at a place, or behind all.
fn insert(
    arena: &mut Arena,
    steps: &mut u64,
    list: Ref,
    place: Value,
    member: Value,
    at: Place,
) -> Given
    requires list { Owns (seen arena.old) (value.List list) }
    requires member { Owns (seen arena.old) member }
    ensures { Gives (insert_row at list.at (value_of (seen arena.old) place) (value_of (seen arena.old) member) (state_in (seen arena.old) steps.old)) result (seen arena.old) (seen arena.new) steps.new }
{
    if let Err(stop) = arena.may_change(list) {
        return Err(stop_at(arena, stop, at));
    }
    match place {
        Value::Int(number) => {
            pay_operation(
                arena,
                at,
                Value::List(list),
                &[member],
                Some(0),
                Some(0),
                steps,
            )?;
            let place = place_of(arena.list(list).len(), number);
            let done = arena.list_insert(list, place as u64, member);
            changed(arena, done, at)
        }
        _ => Err(refusal(arena, FaultKind::ValueKind, at)),
    }
}

/// The last member, which goes.
fn pop_last(arena: &mut Arena, list: Ref, at: Place) -> Given
    requires { Owns (seen arena.old) (value.List list) }
    ensures { (n : ℕ) → Gives (pop_row at list.at false none_value (state_in (seen arena.old) n)) result (seen arena.old) (seen arena.new) n }
{
    if let Err(stop) = arena.may_change(list) {
        return Err(stop_at(arena, stop, at));
    }
    match place_among(arena.list(list).len(), -1) {
        None => Err(refusal(arena, FaultKind::IndexRange, at)),
        Some(place) => remove_at(arena, list, place, at),
    }
}

/// The member at a place, which goes.
fn pop_at(arena: &mut Arena, steps: &mut u64, list: Ref, place: Value, at: Place) -> Given
    requires { Owns (seen arena.old) (value.List list) }
    ensures { Gives (pop_row at list.at true (value_of (seen arena.old) place) (state_in (seen arena.old) steps.old)) result (seen arena.old) (seen arena.new) steps.new }
{
    if let Err(stop) = arena.may_change(list) {
        return Err(stop_at(arena, stop, at));
    }
    let number = match place {
        Value::Int(number) => number,
        _ => return Err(refusal(arena, FaultKind::ValueKind, at)),
    };
    let members = arena.list(list);
    match place_among(members.len(), number) {
        None => Err(refusal(arena, FaultKind::IndexRange, at)),
        Some(place) => {
            let member = members[place];
            pay_operation(
                arena,
                at,
                Value::List(list),
                &[member],
                Some(0),
                Some(0),
                steps,
            )?;
            remove_at(arena, list, place, at)
        }
    }
}

/// A place among so many: from 0 on, or from the end where it is negative.
fn place_among(count: usize, number: i128) -> Option<usize>
    ensures value { result ≡ place_among count number }
    ensures bound { (i : ℕ) → result ≡ Some i → i < count }
{
    if number >= 0 {
        return if number < count as i128 {
            Some(number as usize)
        } else {
            None
        };
    }
    let place = number + count as i128;
    if place >= 0 {
        Some(place as usize)
    } else {
        None
    }
}

/// Takes the member at a place out, and gives it.
fn remove_at(arena: &mut Arena, list: Ref, place: usize, at: Place) -> Given
    requires { Owns (seen arena.old) (value.List list) }
    ensures { (n : ℕ) → Gives (acting at (list_remove list.at place) (state_in (seen arena.old) n)) result (seen arena.old) (seen arena.new) n }
{
    match arena.list_remove(list, place as u64) {
        Ok(member) => Ok(member),
        Err(stop) => Err(stop_at(arena, stop, at)),
    }
}

/// The first member that equals a value goes.
fn remove(arena: &mut Arena, steps: &mut u64, list: Ref, member: Value, at: Place) -> Given
    requires list { Owns (seen arena.old) (value.List list) }
    requires member { Owns (seen arena.old) member }
    ensures { Gives (remove_row at list.at (value_of (seen arena.old) member) (state_in (seen arena.old) steps.old)) result (seen arena.old) (seen arena.new) steps.new }
{
    if let Err(stop) = arena.may_change(list) {
        return Err(stop_at(arena, stop, at));
    }
    pay_operation(
        arena,
        at,
        Value::List(list),
        &[member],
        Some(0),
        Some(0),
        steps,
    )?;
    match find(arena, steps, member, arena.list(list), 0, at)? {
        None => Err(refusal(arena, FaultKind::KeyMissing, at)),
        Some(place) => {
            remove_at(arena, list, place, at)?;
            Ok(Value::None)
        }
    }
}
