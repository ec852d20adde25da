// Each operator's row.
ghost use Rattle.std.specs.Prelude.{◌≡◌};
ghost use Rattle.star_steps.specs.Names.{ℕ, IsTrue, equality, answered, augment_row, binary_row, compared, contained_in, denied, not_row, remainder_row, unary_row, Comparison, comparison, is_above, is_below, index_row, set_index_row, slice_row, binary_operator_of, unary_operator_of, seen, Grows, Owns, View, value_of, Gives, Meets, as_is, state_in};
ghost use Rattle.star_ops.specs.Acts.{is_test};
ghost use Rattle.star_compare.specs.Alike.{comparison_of};
ghost use Rattle.star_index.specs.Cuts.{cut_in};

use crate::in_place::extend;
use crate::integers::{inverse, negative, on_integers, positive};
use crate::membership::is_in;
use crate::products::product;
use crate::sums::add;
use crate::truths::{truth, turning_cost};
use crate::unions::unite;
use object_arena::{Arena, Cut, Value, Work};
use star_compare::{compare as order, equal as alike};
use star_integers::IntegerOp;
use star_steps::{Given, Told, pay, refusal};
use star_tree::code::{BinOp, UnOp};
use std::cmp::Ordering;
use ytt_base::fault::{FaultKind, Place, Stop};

/// What an operator before its operand gives, each refusal at the operator's place: `ValueKind`, `IntOverflow`,
/// and `Steps` of `not`.
pub fn unary(arena: &mut Arena, work: &mut Work, op: UnOp, value: Value, place: Place) -> Given
    requires { Owns (seen arena.old) value }
    ensures row { Gives (unary_row place (unary_operator_of op) (value_of (seen arena.old) value) (state_in (seen arena.old) work.old.steps)) result (seen arena.old) (seen arena.new) work.new.steps }
    ensures depth { work.new.depth ≡ work.old.depth }
{
    match op {
        UnOp::Minus => negative(arena, place, value),
        UnOp::Plus => positive(arena, place, value),
        UnOp::Invert => inverse(arena, place, value),
        UnOp::Not => not_true(arena, place, value, &mut work.steps),
    }
}

fn not_true(arena: &Arena, place: Place, value: Value, steps: &mut u64) -> Given
    requires { Owns (seen arena.now) value }
    ensures { Gives (not_row place (value_of (seen arena.now) value) (state_in (seen arena.now) steps.old)) result (seen arena.now) (seen arena.now) steps.new }
{
    pay(arena, place, turning_cost(arena, value), steps)?;
    Ok(Value::Bool(!truth(arena, value)))
}

/// What an operator between its operands gives, each refusal at the operator's place: `ValueKind`, `IntOverflow`, `DivideZero`,
/// `TooDeep` where collections nest too deep, `Steps`, and `NotBuilt` where `%` stands behind a text.
pub fn binary(
    arena: &mut Arena,
    work: &mut Work,
    op: BinOp,
    left: Value,
    right: Value,
    place: Place,
) -> Given
    requires left { Owns (seen arena.old) left }
    requires right { Owns (seen arena.old) right }
    ensures row { Gives (binary_row place (binary_operator_of op) (value_of (seen arena.old) left) (value_of (seen arena.old) right) (state_in (seen arena.old) work.old.steps)) result (seen arena.old) (seen arena.new) work.new.steps }
    ensures depth { work.new.depth ≡ work.old.depth }
{
    let steps = &mut work.steps;
    match op {
        BinOp::Add => add(arena, place, left, right, steps),
        BinOp::Multiply => product(arena, place, left, right, steps),
        BinOp::BitOr => unite(arena, place, left, right, steps),
        BinOp::Remainder => remainder(arena, place, left, right),
        BinOp::Subtract => on_integers(arena, place, IntegerOp::Subtract, left, right),
        BinOp::FloorDivide => on_integers(arena, place, IntegerOp::FloorDivide, left, right),
        BinOp::BitAnd => on_integers(arena, place, IntegerOp::BitAnd, left, right),
        BinOp::BitXor => on_integers(arena, place, IntegerOp::BitXor, left, right),
        BinOp::ShiftLeft => on_integers(arena, place, IntegerOp::ShiftLeft, left, right),
        BinOp::ShiftRight => on_integers(arena, place, IntegerOp::ShiftRight, left, right),
        _ => test(arena, place, op, left, right, steps),
    }
}

/// The remainder of two integers; with a text at the left `NotBuilt`; else `ValueKind`.
fn remainder(arena: &Arena, place: Place, left: Value, right: Value) -> Given
    ensures { (a : View) (n : ℕ) → Gives (remainder_row place (value_of a left) (value_of a right) (state_in a n)) result a a n }
{
    match left {
        Value::Text(_) => Err(refusal(arena, FaultKind::NotBuilt, place)),
        Value::Int(_) => on_integers(arena, place, IntegerOp::Remainder, left, right),
        _ => Err(refusal(arena, FaultKind::ValueKind, place)),
    }
}

/// What an operator gives that tests: equality, order, `in`.
fn test(arena: &Arena, place: Place, op: BinOp, left: Value, right: Value, steps: &mut u64) -> Given
    requires op { IsTrue (is_test op) }
    requires left { Owns (seen arena.now) left }
    requires right { Owns (seen arena.now) right }
    ensures { Gives (binary_row place (binary_operator_of op) (value_of (seen arena.now) left) (value_of (seen arena.now) right) (state_in (seen arena.now) steps.old)) result (seen arena.now) (seen arena.now) steps.new }
{
    match op {
        BinOp::Equal => Ok(Value::Bool(alike(arena, place, left, right, steps)?)),
        BinOp::Unequal => Ok(Value::Bool(!alike(arena, place, left, right, steps)?)),
        BinOp::In => Ok(Value::Bool(is_in(arena, place, left, right, steps)?)),
        BinOp::NotIn => Ok(Value::Bool(!is_in(arena, place, left, right, steps)?)),
        BinOp::Less => Ok(Value::Bool(is_less(order(arena, place, left, right, steps)?))),
        BinOp::Greater => Ok(Value::Bool(is_greater(order(arena, place, left, right, steps)?))),
        BinOp::AtMost => Ok(Value::Bool(!is_greater(order(arena, place, left, right, steps)?))),
        BinOp::AtLeast => Ok(Value::Bool(!is_less(order(arena, place, left, right, steps)?))),
        _ => unreachable!(),
    }
}

fn is_less(order: Ordering) -> bool
    ensures { result ≡ is_below (comparison_of order) }
{
    matches!(order, Ordering::Less)
}

fn is_greater(order: Ordering) -> bool
    ensures { result ≡ is_above (comparison_of order) }
{
    matches!(order, Ordering::Greater)
}

/// What an assignment with an operator gives for what was there and a value: `+=` gives a list itself, with the members of the value
/// behind its own, and refuses as a change of it does; all else is as between operands.
pub fn augment(
    arena: &mut Arena,
    work: &mut Work,
    op: BinOp,
    left: Value,
    right: Value,
    place: Place,
) -> Given
    requires left { Owns (seen arena.old) left }
    requires right { Owns (seen arena.old) right }
    ensures row { Gives (augment_row place (binary_operator_of op) (value_of (seen arena.old) left) (value_of (seen arena.old) right) (state_in (seen arena.old) work.old.steps)) result (seen arena.old) (seen arena.new) work.new.steps }
    ensures depth { work.new.depth ≡ work.old.depth }
{
    match op {
        BinOp::Add => match left {
            Value::List(list) => extend(arena, place, list, right, &mut work.steps),
            _ => add(arena, place, left, right, &mut work.steps),
        },
        _ => binary(arena, work, op, left, right, place),
    }
}

/// Which of two bools, integers, texts, tuples or lists comes first, each refusal at a place: `ValueKind`, `TooDeep`, `Steps`.
pub fn compare(
    arena: &Arena,
    work: &mut Work,
    left: Value,
    right: Value,
    place: Place,
) -> Result<Ordering, Stop>
    requires left { Owns (seen arena.now) left }
    requires right { Owns (seen arena.now) right }
    ensures meaning { Meets comparison_of result (state_in (seen arena.now) work.new.steps) (comparison place (value_of (seen arena.now) left) (value_of (seen arena.now) right) (state_in (seen arena.now) work.old.steps)) }
    ensures depth { work.new.depth ≡ work.old.depth }
{
    order(arena, place, left, right, &mut work.steps)
}

/// Whether two values are equal, each refusal at a place: `TooDeep`, `Steps`.
pub fn equal(arena: &Arena, work: &mut Work, left: Value, right: Value, place: Place) -> Told
    requires left { Owns (seen arena.now) left }
    requires right { Owns (seen arena.now) right }
    ensures meaning { Meets as_is result (state_in (seen arena.now) work.new.steps) (equality place (value_of (seen arena.now) left) (value_of (seen arena.now) right) (state_in (seen arena.now) work.old.steps)) }
    ensures depth { work.new.depth ≡ work.old.depth }
{
    alike(arena, place, left, right, &mut work.steps)
}

/// What an index of a value gives, each refusal at a place: `ValueKind`, `IndexRange`, `KeyMissing` with the key's text, `CutsCharacter`, `TooDeep`,
/// `Steps`.
pub fn index(arena: &mut Arena, work: &mut Work, value: Value, index: Value, place: Place) -> Given
    requires value { Owns (seen arena.old) value }
    requires index { Owns (seen arena.old) index }
    ensures row { Gives (index_row place (value_of (seen arena.old) value) (value_of (seen arena.old) index) (state_in (seen arena.old) work.old.steps)) result (seen arena.old) (seen arena.new) work.new.steps }
    ensures depth { work.new.depth ≡ work.old.depth }
{
    star_index::index(arena, place, value, index, &mut work.steps)
}

/// What a slice of a value gives, each refusal at a place: `ValueKind`, `CutsCharacter`, `Steps`.
pub fn slice(arena: &mut Arena, work: &mut Work, value: Value, cut: Cut, place: Place) -> Given
    requires { Owns (seen arena.old) value }
    ensures row { Gives (slice_row place (value_of (seen arena.old) value) (cut_in (seen arena.old).held cut) (state_in (seen arena.old) work.old.steps)) result (seen arena.old) (seen arena.new) work.new.steps }
    ensures depth { work.new.depth ≡ work.old.depth }
{
    star_index::slice(arena, place, value, cut, &mut work.steps)
}

/// Puts a value in the place of a member of a list, or under a key of a dict, each refusal at a place: `Frozen` and `Iterating` of what
/// can't be changed, before all else; then `ValueKind`, `IndexRange`, `TooDeep`, `Steps`.
pub fn set_index(
    arena: &mut Arena,
    work: &mut Work,
    value: Value,
    index: Value,
    new: Value,
    place: Place,
) -> Result<(), Stop>
    requires value { Owns (seen arena.old) value }
    requires index { Owns (seen arena.old) index }
    requires new { Owns (seen arena.old) new }
    ensures meaning { Meets as_is result (state_in (seen arena.new) work.new.steps) (set_index_row place (value_of (seen arena.old) value) (value_of (seen arena.old) index) (value_of (seen arena.old) new) (state_in (seen arena.old) work.old.steps)) }
    ensures held { (seen arena.new).held ≡ (seen arena.old).held }
    ensures grows { Grows (seen arena.old) (seen arena.new) }
    ensures depth { work.new.depth ≡ work.old.depth }
{
    star_index::set_index(arena, place, value, index, new, &mut work.steps)
}
