// Arguments of a call or a note, one behind another.
ghost use Rattle.std.specs.Prelude.{◌≡◌, ◌∷◌, [], ℕ, IfOk};
ghost use Rattle.object_arena.specs.Names.{Owns, OwnsAll, OwnsFields, fields_in, seen, value_of, values_from, values_of};
ghost use Rattle.star_steps.specs.Meets.{Meets, state_in};
ghost use Rattle.star_values.specs.Owns.{OwnsArguments};
ghost use Rattle.star_values.specs.View.{View, arguments_in};
ghost use Rattle.value_spec.specs.Values.{a_field, a_value, arguments, no_fields, no_values};
ghost use Rattle.star_calls.specs.Arguments.{and_argument, both, star, two_stars};
ghost use Rattle.star_calls.specs.View.{form_of};

use crate::spread::{fields_if_any, members_taken};
use object_arena::Arena;
use star_steps::refusal;
use star_values::{CallArgs, NamedValue, NamedValues, Value, Values};
use ytt_base::fault::{FaultKind, Place, Stop};
use ytt_base::text::{Memory, Text};

/// How an argument stands in a call or a note: by its place, by its name, as `*e`, or as `**e`.
#[derive(Clone, Copy)]
pub enum ArgumentForm<'p> {
    Positional,
    Named(&'p Text),
    Star(Place),
    Stars(Place),
}

/// The arguments that are given, and behind them what one more gives, which has this value, where so many steps are left. It takes
/// none. It refuses at its place, with `ValueKind` where it is `*e` of what has no members, or `**e` of what is no dict with texts
/// as keys, and with `Steps` where it is `*e` of a range with more members than steps are left.
pub fn add_argument(
    arena: &Arena,
    steps: u64,
    form: ArgumentForm<'_>,
    value: Value,
    given: CallArgs,
) -> Result<CallArgs, Stop>
    requires value { Owns (seen arena.now) value }
    requires given { OwnsArguments (seen arena.now) given }
    ensures meaning { Meets (arguments_in (seen arena.now).held) result (state_in (seen arena.now) steps) (and_argument (form_of form.entry) (value_of (seen arena.now) value) (arguments_in (seen arena.now).held given) (state_in (seen arena.now) steps)) }
    ensures owns { IfOk result (OwnsArguments (seen arena.now)) }
{
    match form {
        ArgumentForm::Positional => Ok(with_position(given, value)?),
        ArgumentForm::Named(name) => Ok(with_name(given, name.copy()?, value)?),
        ArgumentForm::Star(at) => add_members(arena, steps, at, value, given),
        ArgumentForm::Stars(at) => add_pairs(arena, at, value, given),
    }
}

/// The members of a value behind the arguments that are given.
fn add_members(
    arena: &Arena,
    steps: u64,
    at: Place,
    value: Value,
    given: CallArgs,
) -> Result<CallArgs, Stop>
    requires value { Owns (seen arena.now) value }
    requires given { OwnsArguments (seen arena.now) given }
    ensures meaning { Meets (arguments_in (seen arena.now).held) result (state_in (seen arena.now) steps) (and_argument (star at) (value_of (seen arena.now) value) (arguments_in (seen arena.now).held given) (state_in (seen arena.now) steps)) }
    ensures owns { IfOk result (OwnsArguments (seen arena.now)) }
{
    let members = members_taken(arena, steps, value, at)?;
    Ok(with_positions(given, members)?)
}

/// The pairs of a dict behind the arguments that are given.
fn add_pairs(arena: &Arena, at: Place, value: Value, given: CallArgs) -> Result<CallArgs, Stop>
    requires value { Owns (seen arena.now) value }
    requires given { OwnsArguments (seen arena.now) given }
    ensures meaning { (n : ℕ) → Meets (arguments_in (seen arena.now).held) result (state_in (seen arena.now) n) (and_argument (two_stars at) (value_of (seen arena.now) value) (arguments_in (seen arena.now).held given) (state_in (seen arena.now) n)) }
    ensures owns { IfOk result (OwnsArguments (seen arena.now)) }
{
    match fields_if_any(arena, value)? {
        None => Err(refusal(arena, FaultKind::ValueKind, at)),
        Some(fields) => Ok(with_names(given, fields)?),
    }
}

// ---- behind what is given

fn with_position(mut given: CallArgs, value: Value) -> Result<CallArgs, Memory>
    ensures given { (a : View) → IfOk result (λ all. arguments_in a.held all ≡ both (arguments_in a.held given) (arguments (a_value (value_of a value) no_values) no_fields)) }
    ensures owns { (a : View) → OwnsArguments a given → Owns a value → IfOk result (OwnsArguments a) }
{
    given.positional.push(value)?;
    Ok(given)
}

fn with_name(mut given: CallArgs, name: Text, value: Value) -> Result<CallArgs, Memory>
    ensures given { (a : View) → IfOk result (λ all. arguments_in a.held all ≡ both (arguments_in a.held given) (arguments no_values (a_field name (value_of a value) no_fields))) }
    ensures owns { (a : View) → OwnsArguments a given → Owns a value → IfOk result (OwnsArguments a) }
{
    given.named.push(NamedValue { name, value })?;
    Ok(given)
}

fn with_positions(mut given: CallArgs, members: Values) -> Result<CallArgs, Memory>
    ensures given { (a : View) → IfOk result (λ all. arguments_in a.held all ≡ both (arguments_in a.held given) (arguments (values_from (values_of a members)) no_fields)) }
    ensures owns { (a : View) → OwnsArguments a given → OwnsAll a members → IfOk result (OwnsArguments a) }
{
    given.positional.append(members)?;
    Ok(given)
}

fn with_names(mut given: CallArgs, fields: NamedValues) -> Result<CallArgs, Memory>
    ensures given { (a : View) → IfOk result (λ all. arguments_in a.held all ≡ both (arguments_in a.held given) (arguments no_values (fields_in a.held fields))) }
    ensures owns { (a : View) → OwnsArguments a given → OwnsFields a fields → IfOk result (OwnsArguments a) }
{
    given.named.append(fields)?;
    Ok(given)
}
