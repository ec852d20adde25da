// Functions of numbers.
ghost use Rattle.std.specs.Int.{w128};
ghost use Rattle.std.specs.Prelude.{◌≡◌, ℕ, FitsSigned, MatchOption};
ghost use Rattle.builtin_spec.specs.Builtins.{absolute_row, range_by, range_row};
ghost use Rattle.star_steps.specs.Names.{Gives, Owns, OwnsAll, seen, state_in, value_of, values_from, values_of};
ghost use Rattle.value_spec.specs.Members.{as_int};
ghost use Rattle.value_spec.specs.Values.{arguments, no_fields};
ghost use Rattle.star_builtins.specs.View.{of_integers};
ghost use Rattle.star_values.specs.Owns.{OwnsArguments};
ghost use Rattle.star_values.specs.View.{View, arguments_in};

use object_arena::{Arena, CallArgs, Value, Work};
use star_steps::{Given, refusal};
use star_text::argument;
use star_tree::code::UnOp;
use ytt_base::fault::{FaultKind, Place};

/// An integer without its sign, or `ValueKind`; `IntOverflow` of the least one.
pub(crate) fn absolute(arena: &mut Arena, work: &mut Work, value: Value, at: Place) -> Given
    requires { Owns (seen arena.old) value }
    ensures row { Gives (absolute_row at (value_of (seen arena.old) value) (state_in (seen arena.old) work.old.steps)) result (seen arena.old) (seen arena.new) work.new.steps }
    ensures depth { work.new.depth ≡ work.old.depth }
{
    match value {
        Value::Int(number) => {
            if number < 0 {
                star_ops::unary(arena, work, UnOp::Minus, value, at)
            } else {
                Ok(value)
            }
        }
        _ => Err(refusal(arena, FaultKind::ValueKind, at)),
    }
}

/// The numbers from one to another by a step, as a range: `ArgBind` of no arguments, more than three, or any by name, `ValueKind` of what is no
/// integer and of the step 0.
pub(crate) fn range(arena: &mut Arena, args: &CallArgs, at: Place) -> Given
    requires { OwnsArguments (seen arena.old) args.now }
    ensures { (n : ℕ) → Gives (range_row at (arguments_in (seen arena.old).held args.now) (state_in (seen arena.old) n)) result (seen arena.old) (seen arena.new) n }
{
    match args.named.as_slice().split_first() {
        None => by_position(arena, args.positional.as_slice(), at),
        Some(_) => Err(refusal(arena, FaultKind::ArgBind, at)),
    }
}

/// The same of arguments by position alone.
fn by_position(arena: &mut Arena, values: &[Value], at: Place) -> Given
    requires { OwnsAll (seen arena.old) values.now }
    ensures { (n : ℕ) → Gives (range_row at (arguments (values_from (values_of (seen arena.old) values.now)) no_fields) (state_in (seen arena.old) n)) result (seen arena.old) (seen arena.new) n }
{
    let first = argument(arena, values, 0);
    let second = argument(arena, values, 1);
    let count = values.len();
    if count == 1 {
        of_integers(arena, Value::Int(0), first, Value::Int(1), at)
    } else if count == 2 {
        of_integers(arena, first, second, Value::Int(1), at)
    } else if count == 3 {
        of_integers(arena, first, second, argument(arena, values, 2), at)
    } else {
        Err(refusal(arena, FaultKind::ArgBind, at))
    }
}

/// The same of a start, an end and a step, or `ValueKind` where one is no integer.
fn of_integers(arena: &mut Arena, from: Value, to: Value, step: Value, at: Place) -> Given
    ensures { (a : View) (n : ℕ) → Gives (of_integers at (value_of a from) (value_of a to) (value_of a step) (state_in (seen arena.old) n)) result (seen arena.old) (seen arena.new) n }
{
    let from = match integer(from) {
        Some(number) => number,
        None => return Err(refusal(arena, FaultKind::ValueKind, at)),
    };
    let to = match integer(to) {
        Some(number) => number,
        None => return Err(refusal(arena, FaultKind::ValueKind, at)),
    };
    match integer(step) {
        Some(step) => range_by(arena, from, to, step, at),
        None => Err(refusal(arena, FaultKind::ValueKind, at)),
    }
}

/// The integer that a value is, if it is one.
fn integer(value: Value) -> Option<i128>
    ensures value { (a : View) → result ≡ as_int (value_of a value) }
    ensures fits { MatchOption result (Unit {0}) (FitsSigned w128) }
{
    match value {
        Value::Int(number) => Some(number),
        _ => None,
    }
}

/// A range, or `ValueKind` of the step 0.
fn range_by(arena: &mut Arena, from: i128, to: i128, step: i128, at: Place) -> Given
    ensures { (n : ℕ) → Gives (range_by at from to step (state_in (seen arena.old) n)) result (seen arena.old) (seen arena.new) n }
{
    if step == 0 {
        return Err(refusal(arena, FaultKind::ValueKind, at));
    }
    Ok(arena.new_range(from, to, step)?)
}
