// Operators of integers.
ghost use Rattle.std.specs.Prelude.{◌≡◌};
ghost use Rattle.star_steps.specs.Names.{ℕ, unary_row, View, value_of, Gives, state_in};
ghost use Rattle.code_spec.specs.Code as code;
ghost use Rattle.star_ops.specs.Acts.{integer_row, placed};

use object_arena::{Arena, Value};
use star_integers::{IntegerOp, between, negated, turned};
use star_steps::{Given, refusal};
use ytt_base::fault::{FaultKind, Place};

/// A computed integer, or its refusal at a place.
fn at_place(arena: &Arena, place: Place, answer: Result<i128, FaultKind>) -> Given
    ensures { result ≡ placed place answer }
{
    match answer {
        Ok(number) => Ok(Value::Int(number)),
        Err(kind) => Err(refusal(arena, kind, place)),
    }
}

/// What an operator for integers alone gives, or `ValueKind`.
pub fn on_integers(arena: &Arena, place: Place, op: IntegerOp, left: Value, right: Value) -> Given
    ensures { (a : View) (n : ℕ) → Gives (integer_row op place (value_of a left) (value_of a right) (state_in a n)) result a a n }
{
    match (left, right) {
        (Value::Int(a), Value::Int(b)) => at_place(arena, place, between(op, a, b)),
        _ => Err(refusal(arena, FaultKind::ValueKind, place)),
    }
}

/// The integer with its sign turned, or `ValueKind`.
pub fn negative(arena: &Arena, place: Place, value: Value) -> Given
    ensures { (a : View) (n : ℕ) → Gives (unary_row place code.negation (value_of a value) (state_in a n)) result a a n }
{
    match value {
        Value::Int(number) => at_place(arena, place, negated(number)),
        _ => Err(refusal(arena, FaultKind::ValueKind, place)),
    }
}

/// The integer itself, or `ValueKind`.
pub fn positive(arena: &Arena, place: Place, value: Value) -> Given
    ensures { (a : View) (n : ℕ) → Gives (unary_row place code.positive (value_of a value) (state_in a n)) result a a n }
{
    match value {
        Value::Int(number) => Ok(Value::Int(number)),
        _ => Err(refusal(arena, FaultKind::ValueKind, place)),
    }
}

/// The integer with each bit turned, or `ValueKind`.
pub fn inverse(arena: &Arena, place: Place, value: Value) -> Given
    ensures { (a : View) (n : ℕ) → Gives (unary_row place code.inversion (value_of a value) (state_in a n)) result a a n }
{
    match value {
        Value::Int(number) => Ok(Value::Int(turned(number))),
        _ => Err(refusal(arena, FaultKind::ValueKind, place)),
    }
}
