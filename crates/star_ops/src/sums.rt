// Sums: one value behind the other.
ghost use Rattle.std.specs.Prelude.{◌≡◌, ◌++◌};
ghost use Rattle.star_steps.specs.Names.{IfOk, sum_row, seen, Owns, value_of, values_of, Gives, state_in};
ghost use Rattle.star_values.specs.declared.value.Value.TheVariants as value;

use crate::integers::on_integers;
use object_arena::{Arena, Ref, Value, Values};
use sqlite_items::Items;
use star_integers::IntegerOp;
use star_steps::{Given, pay, refusal, tuple_members};
use std::alloc::Global;
use ytt_base::fault::{FaultKind, Place};
use ytt_base::text::{Memory, Text};

/// The sum of two integers; one text, tuple or list behind the other, as a new value; else `ValueKind`.
pub fn add(arena: &mut Arena, place: Place, left: Value, right: Value, steps: &mut u64) -> Given
    requires left { Owns (seen arena.old) left }
    requires right { Owns (seen arena.old) right }
    ensures { Gives (sum_row place (value_of (seen arena.old) left) (value_of (seen arena.old) right) (state_in (seen arena.old) steps.old)) result (seen arena.old) (seen arena.new) steps.new }
{
    match (left, right) {
        (Value::Int(_), _) => on_integers(arena, place, IntegerOp::Add, left, right),
        (Value::Text(a), Value::Text(b)) => join_texts(arena, place, a, b, steps),
        (Value::Tuple(a), Value::Tuple(b)) => join_tuples(arena, place, a, b, steps),
        (Value::List(a), Value::List(b)) => join_lists(arena, place, a, b, steps),
        _ => Err(refusal(arena, FaultKind::ValueKind, place)),
    }
}

/// It takes a sixteenth of the bytes of both and of the result as steps.
fn join_texts(arena: &mut Arena, place: Place, left: Ref, right: Ref, steps: &mut u64) -> Given
    requires left { Owns (seen arena.old) (value.Text left) }
    requires right { Owns (seen arena.old) (value.Text right) }
    ensures { Gives (sum_row place (value_of (seen arena.old) (value.Text left)) (value_of (seen arena.old) (value.Text right)) (state_in (seen arena.old) steps.old)) result (seen arena.old) (seen arena.new) steps.new }
{
    let first = arena.text(left).as_str();
    let second = arena.text(right).as_str();
    let bytes = 2 * (first.len() as u128 + second.len() as u128);
    pay(arena, place, bytes / 16, steps)?;
    let all = joined(arena.alloc(), first, second)?;
    Ok(arena.new_text(all)?)
}

/// It takes the members of both and of the result as steps.
fn join_tuples(arena: &mut Arena, place: Place, left: Ref, right: Ref, steps: &mut u64) -> Given
    requires left { Owns (seen arena.old) (value.Tuple left) }
    requires right { Owns (seen arena.old) (value.Tuple right) }
    ensures { Gives (sum_row place (value_of (seen arena.old) (value.Tuple left)) (value_of (seen arena.old) (value.Tuple right)) (state_in (seen arena.old) steps.old)) result (seen arena.old) (seen arena.new) steps.new }
{
    let first = tuple_members(arena, left);
    let second = tuple_members(arena, right);
    let count = 2 * (first.len() as u128 + second.len() as u128);
    pay(arena, place, count, steps)?;
    let all = both(arena.alloc(), first, second)?;
    Ok(arena.new_tuple(all.as_slice())?)
}

/// It takes the members of both and of the result as steps.
fn join_lists(arena: &mut Arena, place: Place, left: Ref, right: Ref, steps: &mut u64) -> Given
    requires left { Owns (seen arena.old) (value.List left) }
    requires right { Owns (seen arena.old) (value.List right) }
    ensures { Gives (sum_row place (value_of (seen arena.old) (value.List left)) (value_of (seen arena.old) (value.List right)) (state_in (seen arena.old) steps.old)) result (seen arena.old) (seen arena.new) steps.new }
{
    let first = arena.list(left);
    let second = arena.list(right);
    let count = 2 * (first.len() as u128 + second.len() as u128);
    pay(arena, place, count, steps)?;
    let all = both(arena.alloc(), first, second)?;
    Ok(arena.new_list(all.as_slice())?)
}

fn joined(alloc: Global, left: &str, right: &str) -> Result<Text, Memory>
    ensures { IfOk result (λ t. t ≡ left.now ++ right.now) }
{
    let mut string = String::from_str(alloc, left)?;
    string.push_str(right)?;
    Ok(Text::of_string(string))
}

/// Values behind others.
fn both(alloc: Global, left: &[Value], right: &[Value]) -> Result<Values, Memory>
    ensures { IfOk result (λ all. all ≡ left.now ++ right.now) }
{
    let mut all = Items::from_slice(alloc, left)?;
    all.append(Items::from_slice(alloc, right)?)?;
    Ok(all)
}
