// Checks that hold a rule.
ghost use Rattle.std.specs.Prelude.{◌≡◌};
ghost use Rattle.module_spec.specs.Asserting.{at_least, at_most, checked, is_none, length_checked, length_in, rule_checked, rule_parts};
ghost use Rattle.operator_spec.specs.Order.{is_above, is_below};
ghost use Rattle.star_compare.specs.Alike.{comparison_of};
ghost use Rattle.text_spec.specs.Signatures.{value_at};
ghost use Rattle.value_spec.specs.Store.{option_members};
ghost use Rattle.star_steps.specs.Names.{Meets, Owns, OwnsAll, OwnsOption, View, as_is, option_in, seen, state_in, value_of, values_of};
ghost use Rattle.mod_basic.specs.View.{length_paid, not_above, not_below, not_null};
ghost use Rattle.mod_basic.specs.Walks.{Yields};

use crate::asserts::unless_not;
use crate::costs::pay_for;
use object_arena::{Arena, Value};
use star_compare::compare;
use star_ops::member_count;
use star_steps::{Given, refusal, tuple_members};
use star_text::argument;
use std::cmp::Ordering;
use ytt_base::fault::{FaultKind, Place, Stop};

/// What a check that holds a rule says of a value: None, or the failure of the rule. A rule of no name is `ValueKind`.
pub(crate) fn check(
    arena: &mut Arena,
    steps: &mut u64,
    on: Option<Value>,
    value: Value,
    at: Place,
) -> Given
    requires on { OwnsOption (seen arena.old) on }
    requires value { Owns (seen arena.old) value }
    ensures { Yields (rule_checked (rule_parts (value_at 0 (option_members (option_in (seen arena.old).held on)))) at (value_of (seen arena.old) value))
        result arena.old arena.new steps.old steps.new }
{
    let rule = rule_parts(arena, on);
    let of = argument(arena, rule, 1);
    match argument(arena, rule, 0) {
        Value::Text(name) => checked(arena, steps, arena.text(name).as_str(), of, value, at),
        _ => Err(refusal(arena, FaultKind::ValueKind, at)),
    }
}

/// The name of a rule and what it is made of.
fn rule_parts(arena: &Arena, on: Option<Value>) -> &[Value]
    requires { OwnsOption (seen arena.now) on }
    ensures parts { values_of (seen arena.now) result.now ≡ rule_parts (value_at 0 (option_members (option_in (seen arena.now).held on))) }
    ensures owns { OwnsAll (seen arena.now) result.now }
{
    match on {
        Some(Value::Tuple(tuple)) => tuple_members(arena, tuple),
        _ => &[],
    }
}

/// What a rule of this name, which is made of a value, says of another.
fn checked(arena: &Arena, steps: &mut u64, rule: &str, of: Value, value: Value, at: Place) -> Given
    requires of { Owns (seen arena.now) of }
    requires value { Owns (seen arena.now) value }
    ensures { Yields (checked rule.now at (value_of (seen arena.now) of) (value_of (seen arena.now) value)) result arena.now arena.now steps.old steps.new }
{
    match rule {
        "min" => not_below(arena, steps, rule, of, value, at),
        "max" => not_above(arena, steps, rule, of, value, at),
        "min_len" => not_shorter(arena, steps, rule, of, value, at),
        "max_len" => not_longer(arena, steps, rule, of, value, at),
        "not_null" => not_null(arena, steps, rule, value, at),
        _ => Err(refusal(arena, FaultKind::ValueKind, at)),
    }
}

/// None where a value isn't less than another, for the sizes of both, and else the failure of the rule.
fn not_below(
    arena: &Arena,
    steps: &mut u64,
    rule: &str,
    of: Value,
    value: Value,
    at: Place,
) -> Given
    requires of { Owns (seen arena.now) of }
    requires value { Owns (seen arena.now) value }
    ensures { Yields (not_below rule.now at (value_of (seen arena.now) of) (value_of (seen arena.now) value)) result arena.now arena.now steps.old steps.new }
{
    let order = compare(arena, at, value, of, steps)?;
    unless_not(arena, at, rule, !is_less(order))
}

/// None where a value isn't greater than another, for the sizes of both, and else the failure of the rule.
fn not_above(
    arena: &Arena,
    steps: &mut u64,
    rule: &str,
    of: Value,
    value: Value,
    at: Place,
) -> Given
    requires of { Owns (seen arena.now) of }
    requires value { Owns (seen arena.now) value }
    ensures { Yields (not_above rule.now at (value_of (seen arena.now) of) (value_of (seen arena.now) value)) result arena.now arena.now steps.old steps.new }
{
    let order = compare(arena, at, value, of, steps)?;
    unless_not(arena, at, rule, !is_greater(order))
}

fn is_less(order: Ordering) -> bool
    ensures { result ≡ is_below (comparison_of order) }
{
    matches!(order, Ordering::Less)
}

fn is_greater(order: Ordering) -> bool
    ensures { result ≡ is_above (comparison_of order) }
{
    matches!(order, Ordering::Greater)
}

/// None where a value has at least so many bytes or members, for its cost, and else the failure of the rule.
fn not_shorter(
    arena: &Arena,
    steps: &mut u64,
    rule: &str,
    of: Value,
    value: Value,
    at: Place,
) -> Given
    requires { Owns (seen arena.now) value }
    ensures { Yields (length_checked (at_least (value_of (seen arena.now) of)) rule.now at (value_of (seen arena.now) value)) result arena.now arena.now steps.old steps.new }
{
    let length = length_paid(arena, steps, value, at)?;
    unless_not(arena, at, rule, at_least(of, length))
}

/// None where a value has at most so many bytes or members, for its cost, and else the failure of the rule.
fn not_longer(
    arena: &Arena,
    steps: &mut u64,
    rule: &str,
    of: Value,
    value: Value,
    at: Place,
) -> Given
    requires { Owns (seen arena.now) value }
    ensures { Yields (length_checked (at_most (value_of (seen arena.now) of)) rule.now at (value_of (seen arena.now) value)) result arena.now arena.now steps.old steps.new }
{
    let length = length_paid(arena, steps, value, at)?;
    unless_not(arena, at, rule, at_most(of, length))
}

/// How many bytes a text has, or members a list, tuple, dict or range, for its cost; `ValueKind` of another value.
fn length_paid(arena: &Arena, steps: &mut u64, value: Value, at: Place) -> Result<u128, Stop>
    requires { Owns (seen arena.now) value }
    ensures { Meets as_is result (state_in (seen arena.now) steps.new) (length_paid at (value_of (seen arena.now) value) (state_in (seen arena.now) steps.old)) }
{
    match length_of(arena, value) {
        None => Err(refusal(arena, FaultKind::ValueKind, at)),
        Some(length) => {
            pay_for(arena, at, &[value], steps)?;
            Ok(length)
        }
    }
}

fn length_of(arena: &Arena, value: Value) -> Option<u128>
    requires { Owns (seen arena.now) value }
    ensures { result ≡ length_in (seen arena.now).store (value_of (seen arena.now) value) }
{
    match value {
        Value::Text(text) => Some(arena.text(text).as_str().len() as u128),
        Value::Tuple(_) | Value::List(_) | Value::Dict(_) | Value::Range(_) => {
            Some(member_count(arena, value))
        }
        _ => None,
    }
}

/// Whether a length is no less than an integer.
fn at_least(bound: Value, length: u128) -> bool
    ensures { (a : View) → result ≡ at_least (value_of a bound) length }
{
    match bound {
        Value::Int(bound) => match u128::try_from(bound) {
            Ok(bound) => bound <= length,
            Err(_) => true,
        },
        _ => false,
    }
}

/// Whether a length is no more than an integer.
fn at_most(bound: Value, length: u128) -> bool
    ensures { (a : View) → result ≡ at_most (value_of a bound) length }
{
    match bound {
        Value::Int(bound) => match u128::try_from(bound) {
            Ok(bound) => length <= bound,
            Err(_) => false,
        },
        _ => false,
    }
}

/// None where a value isn't None, for its cost, and else the failure of the rule.
fn not_null(arena: &Arena, steps: &mut u64, rule: &str, value: Value, at: Place) -> Given
    requires { Owns (seen arena.now) value }
    ensures { Yields (not_null rule.now at (value_of (seen arena.now) value)) result arena.now arena.now steps.old steps.new }
{
    pay_for(arena, at, &[value], steps)?;
    unless_not(arena, at, rule, !is_none(value))
}

fn is_none(value: Value) -> bool
    ensures { (a : View) → result ≡ is_none (value_of a value) }
{
    matches!(value, Value::None)
}
