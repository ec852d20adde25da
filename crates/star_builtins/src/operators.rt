// The whole table of operators.
ghost use Rattle.std.specs.Prelude.{◌≡◌};
ghost use Rattle.star_steps.specs.Names.{Gives, Owns, binary_operator_of, seen, state_in, value_of};
ghost use Rattle.builtin_spec.specs.Operators.{assignment_row, operator_row};

use object_arena::{Arena, Value, Work};
use star_steps::Given;
use star_text::text_percent;
use star_tree::code::BinOp;
use ytt_base::fault::Place;

/// What an operator between its operands gives. A text at the left of `%` is filled; all else is as by the operators of
/// `star_ops`. Each refusal stands at the operator's place.
pub fn binary(
    arena: &mut Arena,
    work: &mut Work,
    op: BinOp,
    left: Value,
    right: Value,
    at: Place,
) -> Given
    requires left { Owns (seen arena.old) left }
    requires right { Owns (seen arena.old) right }
    ensures row { Gives (operator_row at (binary_operator_of op) (value_of (seen arena.old) left) (value_of (seen arena.old) right) (state_in (seen arena.old) work.old.steps)) result (seen arena.old) (seen arena.new) work.new.steps }
    ensures depth { work.new.depth ≡ work.old.depth }
{
    match (op, left) {
        (BinOp::Remainder, Value::Text(_)) => text_percent(arena, work, left, right, at),
        _ => star_ops::binary(arena, work, op, left, right, at),
    }
}

/// The same in an assignment: `+=` changes a list in place.
pub fn augment(
    arena: &mut Arena,
    work: &mut Work,
    op: BinOp,
    left: Value,
    right: Value,
    at: Place,
) -> Given
    requires left { Owns (seen arena.old) left }
    requires right { Owns (seen arena.old) right }
    ensures row { Gives (assignment_row at (binary_operator_of op) (value_of (seen arena.old) left) (value_of (seen arena.old) right) (state_in (seen arena.old) work.old.steps)) result (seen arena.old) (seen arena.new) work.new.steps }
    ensures depth { work.new.depth ≡ work.old.depth }
{
    match (op, left) {
        (BinOp::Remainder, Value::Text(_)) => text_percent(arena, work, left, right, at),
        _ => star_ops::augment(arena, work, op, left, right, at),
    }
}
