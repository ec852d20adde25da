// The values of all parameters.
ghost use Rattle.std.specs.Prelude.{◌≡◌, ℕ};
ghost use Rattle.code_spec.specs.Code.{no_parameters};
ghost use Rattle.object_arena.specs.Names.{OwnsAll, seen, values_of};
ghost use Rattle.value_spec.specs.Binding.{bound_values};
ghost use Rattle.star_steps.specs.Meets.{state_in};
ghost use Rattle.star_tree.specs.Whole.{parameters_of};
ghost use Rattle.star_values.specs.Owns.{OwnsArguments};
ghost use Rattle.star_values.specs.View.{arguments_in};
ghost use Rattle.star_calls.specs.Left.{GivesAll, OwnsRest, completed, rest_of};

use crate::filling::fill;
use crate::left::Left;
use crate::names::has_twice;
use object_arena::{Arena, CallArgs, Value, Values};
use sqlite_items::Items;
use star_steps::refusal;
use star_tree::code::Param;
use ytt_base::fault::{FaultKind, Place, Stop};

/// The values that the parameters of a call get, in their order, where the parameters with a default have these. It takes no
/// steps. Each refusal is `ArgBind` at the place.
pub fn bind(
    arena: &mut Arena,
    params: &[Param],
    defaults: &[Value],
    args: CallArgs,
    at: Place,
) -> Result<Values, Stop>
    requires defaults { OwnsAll (seen arena.old) defaults.now }
    requires args { OwnsArguments (seen arena.old) args }
    ensures { (file n : ℕ) → GivesAll (bound_values at (parameters_of file params.now) (values_of (seen arena.old) defaults.now) (arguments_in (seen arena.old).held args) (state_in (seen arena.old) n)) result (seen arena.old) (seen arena.new) n }
{
    let CallArgs { positional, named } = args;
    let twice = has_twice(arena.alloc(), named.as_slice())?;
    if twice {
        return Err(refusal(arena, FaultKind::ArgBind, at));
    }
    let left = Left {
        positions: positional.as_slice(),
        defaults,
        named,
        got: Items::new(arena.alloc()),
    };
    fill_all(arena, params, left, at)
}

/// The values that were got, and behind them those that the parameters get.
fn fill_all(
    arena: &mut Arena,
    params: &[Param],
    mut left: Left<'_>,
    at: Place,
) -> Result<Values, Stop>
    requires { OwnsRest (seen arena.old) left }
    ensures { (file n : ℕ) → GivesAll (completed at (parameters_of file params.now) (rest_of (seen arena.old) left.entry) (state_in (seen arena.old) n)) result (seen arena.old) (seen arena.new) n }
{
    let mut rest = params;
    while let Some((param, more)) = rest.split_first() {
        fill(arena, param, more, &mut left, at)?;
        rest = more;
    }
    all_taken(arena, left, at)
}

/// The values that were got, where nothing is left.
pub(crate) fn all_taken(arena: &Arena, left: Left<'_>, at: Place) -> Result<Values, Stop>
    requires { OwnsRest (seen arena.now) left }
    ensures { (n : ℕ) → GivesAll (completed at no_parameters (rest_of (seen arena.now) left.entry) (state_in (seen arena.now) n)) result (seen arena.now) (seen arena.now) n }
{
    if left.positions.is_empty() && left.named.is_empty() {
        return Ok(left.got);
    }
    Err(refusal(arena, FaultKind::ArgBind, at))
}
