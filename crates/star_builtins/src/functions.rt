// The language's own functions of the values of their parameters.
ghost use Rattle.std.specs.Prelude.{◌≡◌, ℕ};
ghost use Rattle.builtin_spec.specs.Builtins.{failure_row, length_row, text_given, type_name};
ghost use Rattle.star_steps.specs.Names.{Gives, Owns, OwnsAll, seen, state_in, value_of, values_of};
ghost use Rattle.star_values.specs.View.{View};
ghost use Rattle.text_spec.specs.Shown.{repr_of, str_of};
ghost use Rattle.star_builtins.specs.View.{function_gives};

use crate::attributes::{get_attribute, has_attribute};
use crate::field_names::field_names;
use crate::integers::integer_of;
use crate::members::{all, any, list, reversed, tuple};
use crate::numbers::absolute;
use crate::sequences::enumerate;
use crate::table::Builtin;
use object_arena::{Arena, Value, Work};
use star_ops::{member_count, truth};
use star_shown::{repr_of, str_of};
use star_steps::{Given, refusal};
use star_text::argument;
use ytt_base::fault::{Fault, FaultKind, Place, Stop};
use ytt_base::text::Text;

/// What a function gives for the values of its parameters.
pub(crate) fn apply(
    arena: &mut Arena,
    work: &mut Work,
    builtin: Builtin,
    given: bool,
    values: &[Value],
    at: Place,
) -> Given
    requires { OwnsAll (seen arena.old) values.now }
    ensures row { Gives (function_gives builtin given at (values_of (seen arena.old) values.now) (state_in (seen arena.old) work.old.steps)) result (seen arena.old) (seen arena.new) work.new.steps }
    ensures depth { work.new.depth ≡ work.old.depth }
{
    let value = argument(arena, values, 0);
    match builtin {
        Builtin::Len => length(arena, value, at),
        Builtin::Str => by_str(arena, work, value, at),
        Builtin::Repr => by_repr(arena, work, value, at),
        Builtin::Type => {
            let name = Text::of(arena.alloc(), type_name(value))?;
            Ok(arena.new_text(name)?)
        }
        Builtin::Bool => Ok(Value::Bool(truth(arena, value))),
        Builtin::Fail => fail(arena, work, value, at),
        Builtin::List => list(arena, &mut work.steps, given, value, at),
        Builtin::Tuple => tuple(arena, &mut work.steps, given, value, at),
        Builtin::Reversed => reversed(arena, &mut work.steps, value, at),
        Builtin::Any => any(arena, &mut work.steps, value, at),
        Builtin::All => all(arena, &mut work.steps, value, at),
        Builtin::Abs => absolute(arena, work, value, at),
        Builtin::Int => {
            let base = argument(arena, values, 1);
            integer_of(arena, &mut work.steps, value, given, base, at)
        }
        Builtin::Enumerate => {
            let start = argument(arena, values, 1);
            enumerate(arena, &mut work.steps, value, start, at)
        }
        Builtin::HasAttr => has_attribute(arena, value, argument(arena, values, 1), at),
        Builtin::GetAttr => {
            let name = argument(arena, values, 1);
            let other = argument(arena, values, 2);
            get_attribute(arena, value, name, given, other, at)
        }
        Builtin::Dir => field_names(arena, &mut work.steps, value, at),
    }
}

/// The text that a value is by `str`.
fn by_str(arena: &mut Arena, work: &mut Work, value: Value, at: Place) -> Given
    requires { Owns (seen arena.old) value }
    ensures row { Gives (text_given (str_of at (value_of (seen arena.old) value)) (state_in (seen arena.old) work.old.steps)) result (seen arena.old) (seen arena.new) work.new.steps }
    ensures depth { work.new.depth ≡ work.old.depth }
{
    let text = str_of(arena, work, value, at)?;
    Ok(arena.new_text(text)?)
}

/// The text that a value is by `repr`.
fn by_repr(arena: &mut Arena, work: &mut Work, value: Value, at: Place) -> Given
    requires { Owns (seen arena.old) value }
    ensures row { Gives (text_given (repr_of at (value_of (seen arena.old) value)) (state_in (seen arena.old) work.old.steps)) result (seen arena.old) (seen arena.new) work.new.steps }
    ensures depth { work.new.depth ≡ work.old.depth }
{
    let text = repr_of(arena, work, value, at)?;
    Ok(arena.new_text(text)?)
}

/// How many bytes a text has, or members another value; `ValueKind` where it has none to have, and `IntOverflow` where they are more than
/// an integer can say.
fn length(arena: &Arena, value: Value, at: Place) -> Given
    requires { Owns (seen arena.now) value }
    ensures { (n : ℕ) → Gives (length_row at (value_of (seen arena.now) value) (state_in (seen arena.now) n)) result (seen arena.now) (seen arena.now) n }
{
    let count = match value {
        Value::Text(text) => arena.text(text).as_str().len() as u128,
        Value::Tuple(_) | Value::List(_) | Value::Dict(_) | Value::Range(_) => {
            member_count(arena, value)
        }
        _ => return Err(refusal(arena, FaultKind::ValueKind, at)),
    };
    match i128::try_from(count) {
        Ok(count) => Ok(Value::Int(count)),
        Err(_) => Err(refusal(arena, FaultKind::IntOverflow, at)),
    }
}

/// What kind a value is of.
fn type_name(value: Value) -> &'static str
    ensures { (a : View) → result.now ≡ type_name (value_of a value) }
{
    match value {
        Value::None => "NoneType",
        Value::Bool(_) => "bool",
        Value::Int(_) => "int",
        Value::Text(_) => "string",
        Value::Tuple(_) => "tuple",
        Value::Range(_) => "range",
        Value::Struct(_) => "struct",
        Value::Fragment(_) => "yamlfragment",
        Value::List(_) => "list",
        Value::Dict(_) => "dict",
        Value::Func(_) => "function",
        Value::Module(_) => "module",
        Value::Native(_) => "builtin_function_or_method",
    }
}

/// The fault that code asks for, with the text of a value.
fn fail(arena: &Arena, work: &mut Work, value: Value, at: Place) -> Given
    requires { Owns (seen arena.now) value }
    ensures row { Gives (failure_row at (value_of (seen arena.now) value) (state_in (seen arena.now) work.old.steps)) result (seen arena.now) (seen arena.now) work.new.steps }
    ensures depth { work.new.depth ≡ work.old.depth }
{
    let detail = str_of(arena, work, value, at)?;
    Err(Stop::Fault(Fault {
        kind: FaultKind::Failed,
        place: Some(at),
        detail,
    }))
}
