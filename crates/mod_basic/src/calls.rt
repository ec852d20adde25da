// Calls of the natives.
ghost use Rattle.std.specs.Prelude.{◌≡◌, ℕ};
ghost use Rattle.star_steps.specs.Names.{Owns, OwnsAll, OwnsOption, option_in, seen, state_in, value_of, values_of};
ghost use Rattle.star_steps.specs.Replies.{GivesReply};
ghost use Rattle.star_values.specs.Owns.{OwnsArguments};
ghost use Rattle.star_values.specs.View.{arguments_in};
ghost use Rattle.value_spec.specs.Store.{option_members};
ghost use Rattle.mod_basic.specs.View.{bound_of, gives_of, replied, row_of, value_row};
ghost use Rattle.mod_basic.specs.Walks.{Yields};

use crate::asserts::{check_of, equals, fail, rule_of_number, rule_of_value};
use crate::checks::check;
use crate::replacing::replace;
use crate::structs::make;
use crate::table::{Basic, parameters_of};
use crate::tries::asked_call;
use crate::walks::{Way, converted, outermost};
use object_arena::{Arena, CallArgs, Reply, Value, Work};
use star_calls::bind_named;
use star_steps::{Given, refusal};
use star_text::argument;
use ytt_base::fault::{FaultKind, Place, Stop};

/// What a native replies that holds a value, for its arguments; each refusal at the place: `ArgBind` of arguments that don't fit,
/// `ValueKind` of a value of another kind, `TooDeep` of collections that nest too deep, `AssertFailed` of what doesn't hold, and `Steps`.
/// `assert.try_to` asks for a call.
pub fn basic_call(
    arena: &mut Arena,
    work: &mut Work,
    basic: Basic,
    on: Option<Value>,
    args: CallArgs,
    at: Place,
) -> Result<Reply, Stop>
    requires on { OwnsOption (seen arena.old) on }
    requires args { OwnsArguments (seen arena.old) args }
    ensures row { GivesReply (row_of basic at (option_members (option_in (seen arena.old).held on)) (arguments_in (seen arena.old).held args)
        (state_in (seen arena.old) work.old.steps)) result (seen arena.old) (seen arena.new) work.new.steps }
    ensures depth { work.new.depth ≡ work.old.depth }
{
    let value = value_given(arena, &mut work.steps, basic, on, args, at)?;
    reply(arena, basic, value, at)
}

/// What comes of the value that a native gives: `try_to` gives what it asks for.
fn reply(arena: &Arena, basic: Basic, value: Value, at: Place) -> Result<Reply, Stop>
    requires { Owns (seen arena.now) value }
    ensures { (n : ℕ) → GivesReply (replied basic at (value_of (seen arena.now) value) (state_in (seen arena.now) n)) result (seen arena.now) (seen arena.now) n }
{
    match basic {
        Basic::TryTo => asked_call(arena, value, at),
        _ => Ok(Reply::Value(value)),
    }
}

/// The value that a native gives for its arguments.
fn value_given(
    arena: &mut Arena,
    steps: &mut u64,
    basic: Basic,
    on: Option<Value>,
    args: CallArgs,
    at: Place,
) -> Given
    requires on { OwnsOption (seen arena.old) on }
    requires args { OwnsArguments (seen arena.old) args }
    ensures { Yields (value_row basic (option_members (option_in (seen arena.old).held on)) at (arguments_in (seen arena.old).held args))
        result arena.old arena.new steps.old steps.new }
{
    match basic {
        Basic::Make => make(arena, steps, args, at),
        _ => bound(arena, steps, basic, on, args, at),
    }
}

/// The value that a native gives whose arguments are bound before: `ArgBind` where they don't fit.
fn bound(
    arena: &mut Arena,
    steps: &mut u64,
    basic: Basic,
    on: Option<Value>,
    args: CallArgs,
    at: Place,
) -> Given
    requires on { OwnsOption (seen arena.old) on }
    requires args { OwnsArguments (seen arena.old) args }
    ensures { Yields (bound_of basic (option_members (option_in (seen arena.old).held on)) at (arguments_in (seen arena.old).held args))
        result arena.old arena.new steps.old steps.new }
{
    let values = bind_named(arena, parameters_of(basic), &[], args, at)?;
    answered(arena, steps, basic, on, values.as_slice(), at)
}

/// The value that it gives for the values of its parameters.
fn answered(
    arena: &mut Arena,
    steps: &mut u64,
    basic: Basic,
    on: Option<Value>,
    values: &[Value],
    at: Place,
) -> Given
    requires on { OwnsOption (seen arena.old) on }
    requires values { OwnsAll (seen arena.old) values.now }
    ensures { Yields (gives_of basic (option_members (option_in (seen arena.old).held on)) at (values_of (seen arena.old) values.now))
        result arena.old arena.new steps.old steps.new }
{
    let value = argument(arena, values, 0);
    match basic {
        Basic::Make => Err(refusal(arena, FaultKind::ArgBind, at)),
        Basic::Encode => converted(arena, Way::Encode, outermost(at), value, steps),
        Basic::Decode => converted(arena, Way::Decode, outermost(at), value, steps),
        Basic::Fail => fail(arena, steps, value, at),
        Basic::Equals => equals(arena, steps, value, argument(arena, values, 1), at),
        Basic::TryTo => Ok(value),
        Basic::Min => rule_of_value(arena, steps, "min", value, at),
        Basic::Max => rule_of_value(arena, steps, "max", value, at),
        Basic::MinLen => rule_of_number(arena, steps, "min_len", value, at),
        Basic::MaxLen => rule_of_number(arena, steps, "max_len", value, at),
        Basic::NotNull => Ok(check_of(arena, "not_null", &[])?),
        Basic::Check => check(arena, steps, on, value, at),
        Basic::Replace => replace(arena, steps, value, at),
    }
}
