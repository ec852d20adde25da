// What is true, and what it takes to say so.
ghost use Rattle.std.specs.Prelude.{◌≡◌};
ghost use Rattle.star_steps.specs.Names.{count_in, truth_in, cost_in, seen, Owns, value_of};
ghost use Rattle.star_values.specs.declared.value.Value.TheVariants as value;

use object_arena::{Arena, Ref, Value};
use star_compare::{bounds, pair_count};
use star_integers::range_count;
use star_steps::tuple_members;

/// None, False, 0 and what has no byte, member or pair are false; all else is true.
pub fn truth(arena: &Arena, value: Value) -> bool
    requires { Owns (seen arena.now) value }
    ensures { result ≡ truth_in (seen arena.now).store (value_of (seen arena.now) value) }
{
    match value {
        Value::None => false,
        Value::Bool(b) => b,
        Value::Int(n) => n != 0,
        Value::Text(text) => !arena.text(text).as_str().is_empty(),
        Value::Tuple(tuple) => !tuple_members(arena, tuple).is_empty(),
        Value::List(list) => !arena.list(list).is_empty(),
        Value::Dict(dict) => pair_count(arena, dict) != 0,
        Value::Range(range) => number_count(arena, range) != 0,
        _ => true,
    }
}

/// The steps that turning the truth of a value takes: a sixteenth of a text's bytes, or the members that it has.
pub fn turning_cost(arena: &Arena, value: Value) -> u128
    requires { Owns (seen arena.now) value }
    ensures { result ≡ cost_in (seen arena.now).store (value_of (seen arena.now) value) }
{
    match value {
        Value::Text(text) => arena.text(text).as_str().len() as u128 / 16,
        _ => member_count(arena, value),
    }
}

/// How many members a value has; 0 where it has none to have.
pub fn member_count(arena: &Arena, value: Value) -> u128
    requires { Owns (seen arena.now) value }
    ensures { result ≡ count_in (seen arena.now).store (value_of (seen arena.now) value) }
{
    match value {
        Value::Tuple(tuple) => tuple_members(arena, tuple).len() as u128,
        Value::List(list) => arena.list(list).len() as u128,
        Value::Dict(dict) => u128::from(pair_count(arena, dict)),
        Value::Range(range) => number_count(arena, range),
        _ => 0,
    }
}

/// How many numbers a range has.
fn number_count(arena: &Arena, range: Ref) -> u128
    requires { Owns (seen arena.now) (value.Range range) }
    ensures { result ≡ count_in (seen arena.now).store (value_of (seen arena.now) (value.Range range)) }
{
    let (from, to, step) = bounds(arena, range);
    range_count(from, to, step)
}
