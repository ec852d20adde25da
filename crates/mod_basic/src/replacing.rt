// What stands in the place of an item.
ghost use Rattle.module_spec.specs.Replacing.{replace};
ghost use Rattle.star_steps.specs.Names.{Owns, seen, value_of};
ghost use Rattle.mod_basic.specs.Walks.{Yields};

use crate::costs::pay_for;
use object_arena::{Arena, Value};
use star_steps::Given;
use ytt_base::fault::Place;

/// A native that holds a value, for its cost. What an item gives whose value it is are the value's children.
pub(crate) fn replace(arena: &mut Arena, steps: &mut u64, value: Value, at: Place) -> Given
    requires { Owns (seen arena.old) value }
    ensures { Yields (replace at (value_of (seen arena.old) value)) result arena.old arena.new steps.old steps.new }
{
    pay_for(arena, at, &[value], steps)?;
    Ok(arena.new_replacement(value)?)
}
