// Products: a value so many times.
ghost use Rattle.std.specs.Prelude.{◌≡◌, ◌+◌, ◌*◌};
ghost use Rattle.star_steps.specs.Names.{IfOk, text_cost, take_steps, at_least_zero, product_row, repeat_row, repeated, seen, Owns, OwnsAll, value_of, values_of, Gives, Meets, as_is, state_in};
ghost use Rattle.star_values.specs.declared.value.Value.TheVariants as value;

use crate::integers::on_integers;
use object_arena::{Arena, Ref, Value, Values};
use sqlite_items::Items;
use star_integers::IntegerOp;
use star_steps::{Given, Paid, pay, refusal, tuple_members};
use std::alloc::Global;
use ytt_base::fault::{FaultKind, Place};
use ytt_base::text::{Memory, Text};

/// The product of two integers; a text, a tuple or a list so many times, as a new value; else `ValueKind`.
pub fn product(arena: &mut Arena, place: Place, left: Value, right: Value, steps: &mut u64) -> Given
    requires left { Owns (seen arena.old) left }
    requires right { Owns (seen arena.old) right }
    ensures { Gives (product_row place (value_of (seen arena.old) left) (value_of (seen arena.old) right) (state_in (seen arena.old) steps.old)) result (seen arena.old) (seen arena.new) steps.new }
{
    let op = IntegerOp::Multiply;
    match (left, right) {
        (Value::Int(_), Value::Int(_)) => on_integers(arena, place, op, left, right),
        (Value::Int(times), _) => repeat(arena, place, right, times, steps),
        (_, Value::Int(times)) => repeat(arena, place, left, times, steps),
        _ => Err(refusal(arena, FaultKind::ValueKind, place)),
    }
}

fn repeat(arena: &mut Arena, place: Place, value: Value, times: i128, steps: &mut u64) -> Given
    requires { Owns (seen arena.old) value }
    ensures { Gives (repeat_row place (value_of (seen arena.old) value) times (state_in (seen arena.old) steps.old)) result (seen arena.old) (seen arena.new) steps.new }
{
    match value {
        Value::Text(text) => repeat_text(arena, place, text, times, steps),
        Value::Tuple(tuple) => repeat_tuple(arena, place, tuple, times, steps),
        Value::List(list) => repeat_list(arena, place, list, times, steps),
        _ => Err(refusal(arena, FaultKind::ValueKind, place)),
    }
}

/// The number, or 0 for one below.
fn from_zero(number: i128) -> u128
    ensures { result ≡ at_least_zero number }
{
    if number < 0 { 0 } else { number as u128 }
}

/// Takes a sixteenth of so many bytes and of those of their copies. A product past every budget is `Steps` at once.
fn pay_bytes(arena: &Arena, place: Place, bytes: usize, times: i128, steps: &mut u64) -> Paid
    ensures { Meets as_is result (state_in (seen arena.now) steps.new) (take_steps (text_cost (bytes * (1 + at_least_zero times))) place (state_in (seen arena.now) steps.old)) }
{
    match (bytes as u128).checked_mul(1 + from_zero(times)) {
        // No budget has so many steps.
        None => {
            let _budget = *steps;
            Err(refusal(arena, FaultKind::Steps, place))
        }
        Some(all) => pay(arena, place, all / 16, steps),
    }
}

/// Takes 1 for so many members and for each of their copies. A product past every budget is `Steps` at once.
fn pay_members(arena: &Arena, place: Place, count: usize, times: i128, steps: &mut u64) -> Paid
    ensures { Meets as_is result (state_in (seen arena.now) steps.new) (take_steps (count * (1 + at_least_zero times)) place (state_in (seen arena.now) steps.old)) }
{
    match (count as u128).checked_mul(1 + from_zero(times)) {
        // No budget has so many steps.
        None => {
            let _budget = *steps;
            Err(refusal(arena, FaultKind::Steps, place))
        }
        Some(all) => pay(arena, place, all, steps),
    }
}

/// It takes a sixteenth of the bytes of the text and of the result as steps.
fn repeat_text(arena: &mut Arena, place: Place, text: Ref, times: i128, steps: &mut u64) -> Given
    requires { Owns (seen arena.old) (value.Text text) }
    ensures { Gives (repeat_row place (value_of (seen arena.old) (value.Text text)) times (state_in (seen arena.old) steps.old)) result (seen arena.old) (seen arena.new) steps.new }
{
    let one = arena.text(text).as_str();
    pay_bytes(arena, place, one.len(), times, steps)?;
    let all = many(arena.alloc(), one, from_zero(times))?;
    Ok(arena.new_text(all)?)
}

/// It takes the members of the tuple and of the result as steps.
fn repeat_tuple(arena: &mut Arena, place: Place, tuple: Ref, times: i128, steps: &mut u64) -> Given
    requires { Owns (seen arena.old) (value.Tuple tuple) }
    ensures { Gives (repeat_row place (value_of (seen arena.old) (value.Tuple tuple)) times (state_in (seen arena.old) steps.old)) result (seen arena.old) (seen arena.new) steps.new }
{
    let one = tuple_members(arena, tuple);
    pay_members(arena, place, one.len(), times, steps)?;
    let all = many_members(arena, one, from_zero(times))?;
    Ok(arena.new_tuple(all.as_slice())?)
}

/// It takes the members of the list and of the result as steps.
fn repeat_list(arena: &mut Arena, place: Place, list: Ref, times: i128, steps: &mut u64) -> Given
    requires { Owns (seen arena.old) (value.List list) }
    ensures { Gives (repeat_row place (value_of (seen arena.old) (value.List list)) times (state_in (seen arena.old) steps.old)) result (seen arena.old) (seen arena.new) steps.new }
{
    let one = arena.list(list);
    pay_members(arena, place, one.len(), times, steps)?;
    let all = many_members(arena, one, from_zero(times))?;
    Ok(arena.new_list(all.as_slice())?)
}

fn many(alloc: Global, text: &str, times: u128) -> Result<Text, Memory>
    ensures { IfOk result (λ t. t ≡ repeated times text.now) }
{
    let mut all = String::new(alloc);
    if text.is_empty() {
        return Ok(Text::of_string(all));
    }
    for _ in 0..times {
        all.push_str(text)?;
    }
    Ok(Text::of_string(all))
}

fn many_members(arena: &Arena, members: &[Value], times: u128) -> Result<Values, Memory>
    requires { OwnsAll (seen arena.now) members.now }
    ensures values { IfOk result (λ all. values_of (seen arena.now) all ≡ repeated times (values_of (seen arena.now) members.now)) }
    ensures owns { IfOk result (OwnsAll (seen arena.now)) }
{
    let mut all = Items::new(arena.alloc());
    if members.is_empty() {
        return Ok(all);
    }
    for _ in 0..times {
        all.append(Items::from_slice(arena.alloc(), members)?)?;
    }
    Ok(all)
}
