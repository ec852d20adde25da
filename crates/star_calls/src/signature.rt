// The values of the parameters of the language's own functions.
ghost use Rattle.std.specs.Prelude.{◌≡◌, ℕ, IfOk, map as each};
ghost use Rattle.object_arena.specs.Names.{OwnsAll, seen, values_of};
ghost use Rattle.star_steps.specs.Meets.{state_in};
ghost use Rattle.star_values.specs.Owns.{OwnsArguments};
ghost use Rattle.star_values.specs.View.{View, arguments_in};
ghost use Rattle.value_spec.specs.Binding.{bound_values, none_for_each, optional_parameters, parameters_named};
ghost use Rattle.star_calls.specs.Left.{GivesAll, OwnsRest, completed, rest_of};

use crate::binding::all_taken;
use crate::filling::{fill_defaulted, fill_named};
use crate::left::Left;
use crate::names::has_twice;
use object_arena::{Arena, CallArgs, Value, Values};
use sqlite_items::Items;
use star_steps::refusal;
use ytt_base::fault::{FaultKind, Place, Stop};
use ytt_base::text::Memory;

/// The values that the parameters of one of the language's own functions get, in their order: those that must be given, and behind
/// them those that are None where they aren't given. It takes no steps. Each refusal is `ArgBind` at the place.
pub fn bind_named(
    arena: &Arena,
    needed: &[&str],
    optional: &[&str],
    args: CallArgs,
    at: Place,
) -> Result<Values, Stop>
    requires { OwnsArguments (seen arena.now) args }
    ensures { (n : ℕ) → GivesAll (bound_values at (parameters_named (each (λ w. w.now) needed.now) (each (λ w. w.now) optional.now)) (none_for_each (each (λ w. w.now) optional.now)) (arguments_in (seen arena.now).held args) (state_in (seen arena.now) n)) result (seen arena.now) (seen arena.now) n }
{
    let CallArgs { positional, named } = args;
    let twice = has_twice(arena.alloc(), named.as_slice())?;
    if twice {
        return Err(refusal(arena, FaultKind::ArgBind, at));
    }
    let nones = none_for_each(arena, optional)?;
    let left = Left {
        positions: positional.as_slice(),
        defaults: nones.as_slice(),
        named,
        got: Items::new(arena.alloc()),
    };
    fill_needed(arena, needed, optional, left, at)
}

/// None for each of these.
fn none_for_each(arena: &Arena, names: &[&str]) -> Result<Values, Memory>
    ensures { IfOk result (λ vs. (a : View) → (values_of a vs ≡ none_for_each (each (λ w. w.now) names.now)) × OwnsAll a vs) }
{
    let mut nones = Items::new(arena.alloc());
    for _name in names {
        nones.push(Value::None)?;
    }
    Ok(nones)
}

/// The values that were got, and behind them those of the parameters that must be given, and then the others.
fn fill_needed(
    arena: &Arena,
    needed: &[&str],
    optional: &[&str],
    mut left: Left<'_>,
    at: Place,
) -> Result<Values, Stop>
    requires { OwnsRest (seen arena.now) left }
    ensures { (n : ℕ) → GivesAll (completed at (parameters_named (each (λ w. w.now) needed.now) (each (λ w. w.now) optional.now)) (rest_of (seen arena.now) left.entry) (state_in (seen arena.now) n)) result (seen arena.now) (seen arena.now) n }
{
    for name in needed {
        fill_named(arena, *name, None, &mut left, at)?;
    }
    fill_optional(arena, optional, left, at)
}

/// The values that were got, and behind them those of the parameters that may be given.
fn fill_optional(
    arena: &Arena,
    optional: &[&str],
    mut left: Left<'_>,
    at: Place,
) -> Result<Values, Stop>
    requires { OwnsRest (seen arena.now) left }
    ensures { (n : ℕ) → GivesAll (completed at (optional_parameters (each (λ w. w.now) optional.now)) (rest_of (seen arena.now) left.entry) (state_in (seen arena.now) n)) result (seen arena.now) (seen arena.now) n }
{
    for name in optional {
        fill_defaulted(arena, *name, &mut left, at)?;
    }
    all_taken(arena, left, at)
}
