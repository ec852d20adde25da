// Structs of arguments.
ghost use Rattle.std.specs.Prelude.{IfOk, ◌≡◌};
ghost use Rattle.module_spec.specs.Structs.{field_values, make};
ghost use Rattle.star_steps.specs.Names.{OwnsAll, OwnsFields, fields_in, seen, values_of};
ghost use Rattle.star_values.specs.Owns.{OwnsArguments};
ghost use Rattle.star_values.specs.View.{View, arguments_in};
ghost use Rattle.mod_basic.specs.Walks.{Yields};

use crate::costs::pay_for;
use object_arena::{Arena, CallArgs, NamedValue, Values};
use sqlite_items::Items;
use star_calls::has_twice;
use star_steps::{Given, refusal};
use std::alloc::Global;
use ytt_base::fault::{FaultKind, Place};
use ytt_base::text::Memory;

/// A struct of the arguments by name, in their order, for the cost of their values: `ArgBind` where one stands by its position, or two
/// have one name.
pub(crate) fn make(arena: &mut Arena, steps: &mut u64, args: CallArgs, at: Place) -> Given
    requires { OwnsArguments (seen arena.old) args }
    ensures { Yields (make at (arguments_in (seen arena.old).held args)) result arena.old arena.new steps.old steps.new }
{
    let CallArgs { positional, named } = args;
    if !positional.is_empty() {
        return Err(refusal(arena, FaultKind::ArgBind, at));
    }
    if has_twice(arena.alloc(), named.as_slice())? {
        return Err(refusal(arena, FaultKind::ArgBind, at));
    }
    let values = values_in(arena.alloc(), named.as_slice())?;
    pay_for(arena, at, values.as_slice(), steps)?;
    Ok(arena.new_struct(named)?)
}

/// The values of fields.
fn values_in(alloc: Global, fields: &[NamedValue]) -> Result<Values, Memory>
    ensures values { (a : View) → IfOk result (λ vs. values_of a vs ≡ field_values (fields_in a.held fields.now)) }
    ensures owns { (a : View) → OwnsFields a fields.now → IfOk result (OwnsAll a) }
{
    let mut values = Items::new(alloc);
    let mut rest = fields;
    while let Some((field, more)) = rest.split_first() {
        values.push(field.value)?;
        rest = more;
    }
    Ok(values)
}
