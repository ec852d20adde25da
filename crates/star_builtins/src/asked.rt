// `sorted`, `min` and `max`, which may ask for the keys of members.
ghost use Rattle.std.specs.Prelude.{◌≡◌, IfOk, if◌then◌else◌, None, option_map};
ghost use Rattle.builtin_spec.specs.Sorting.{candidates, first_row, is_flag, is_key_function, is_true, key_alone, keyed_builtin, keyed_by, members_taken};
ghost use Rattle.star_sorting.specs.View.{wanted_of};
ghost use Rattle.star_steps.specs.Names.{Owns, OwnsAll, OwnsOption, is_empty, option_in, seen, value_of, values_of};
ghost use Rattle.star_values.specs.Owns.{OwnsArguments, OwnsFields};
ghost use Rattle.star_values.specs.View.{View, arguments_in, fields_in};
ghost use Rattle.star_builtins.specs.Asked.{Asks, Tells, is_none, keyed_row, ordered_row, room_within};

use crate::members::has_members;
use object_arena::{Arena, CallArgs, NamedValue, Value, Values};
use star_calls::bind_named;
use star_ops::{member_count, members_of};
use star_sorting::{Wanted, choose};
use star_steps::refusal;
use star_text::argument;
use ytt_base::fault::{FaultKind, Place, Stop};

/// What a call gives: a value; or what is wanted of members in the order of their keys, the function that is asked for the key of each,
/// and the members.
#[derive(Drop)]
pub enum Asked {
    Value(Value),
    Keys(Wanted, Value, Values),
}

/// A function that may ask for keys.
#[derive(Clone, Copy)]
pub(crate) enum KeyedBuiltin {
    Sorted,
    Min,
    Max,
}

/// The function of a name that may ask for keys.
pub(crate) fn keyed_named(name: &str) -> Option<KeyedBuiltin>
    ensures { option_map keyed_row result ≡ keyed_builtin name.now }
{
    match name {
        "sorted" => Some(KeyedBuiltin::Sorted),
        "min" => Some(KeyedBuiltin::Min),
        "max" => Some(KeyedBuiltin::Max),
        _ => None,
    }
}

/// What `sorted`, `min` or `max` gives for its arguments: `ArgBind` of arguments that don't fit, `ValueKind` of a key that can't be
/// called, of what has no members to have and of keys that have no order, `Steps` of a range that has more members than steps are left.
pub(crate) fn keyed_call(
    arena: &mut Arena,
    steps: &mut u64,
    which: KeyedBuiltin,
    args: CallArgs,
    at: Place,
) -> Result<Asked, Stop>
    requires { OwnsArguments (seen arena.old) args }
    ensures { Asks (keyed_row which at (arguments_in (seen arena.old).held args)) result arena.old arena.new steps.old steps.new }
{
    match which {
        KeyedBuiltin::Sorted => {
            let values = bind_named(arena, &["x"], &["key", "reverse"], args, at)?;
            sorted(arena, steps, values.as_slice(), at)
        }
        KeyedBuiltin::Min => first(arena, steps, false, args, at),
        KeyedBuiltin::Max => first(arena, steps, true, args, at),
    }
}

/// The members of a value in order: of the value, a key function and whether the greatest stands first. `ValueKind` of a key that can't
/// be called and of an order that is no bool comes first.
fn sorted(arena: &mut Arena, steps: &mut u64, values: &[Value], at: Place) -> Result<Asked, Stop>
    requires { OwnsAll (seen arena.old) values.now }
    ensures { Asks (ordered_row at (values_of (seen arena.old) values.now)) result arena.old arena.new steps.old steps.new }
{
    let value = argument(arena, values, 0);
    let key = argument(arena, values, 1);
    let reverse = argument(arena, values, 2);
    if !is_key_function(key) || !is_flag(reverse) {
        return Err(refusal(arena, FaultKind::ValueKind, at));
    }
    let members = members_taken(arena, *steps, value, at)?;
    let wanted = Wanted {
        first_alone: false,
        descending: is_true(reverse),
    };
    keyed_by(arena, steps, wanted, key, members, at)
}

/// The least of values, or of the members of one; or the greatest. `ArgBind` of no values and of another name than `key` comes first, and
/// then `ValueKind` of a key that can't be called.
fn first(
    arena: &mut Arena,
    steps: &mut u64,
    descending: bool,
    args: CallArgs,
    at: Place,
) -> Result<Asked, Stop>
    requires { OwnsArguments (seen arena.old) args }
    ensures { Asks (first_row descending at (arguments_in (seen arena.old).held args)) result arena.old arena.new steps.old steps.new }
{
    let CallArgs { positional, named } = args;
    let key = match key_given(positional.as_slice(), named.as_slice()) {
        Some(key) => key,
        None => return Err(refusal(arena, FaultKind::ArgBind, at)),
    };
    if !is_key_function(key) {
        return Err(refusal(arena, FaultKind::ValueKind, at));
    }
    let members = candidates(arena, *steps, positional, at)?;
    let wanted = Wanted {
        first_alone: true,
        descending,
    };
    keyed_by(arena, steps, wanted, key, members, at)
}

/// The key function of `min` and `max`, None where it isn't given, if there is an argument by position and none by another name.
fn key_given(positional: &[Value], named: &[NamedValue]) -> Option<Value>
    ensures key { (a : View) → option_in a.held result ≡ (if is_empty (values_of a positional.now) then None else key_alone (fields_in a.held named.now)) }
    ensures owned { (a : View) → OwnsFields a named.now → OwnsOption a result }
{
    if positional.is_empty() {
        None
    } else {
        key_alone(named)
    }
}

/// The value of `key`, None where no argument is given by name, if none has another name.
fn key_alone(named: &[NamedValue]) -> Option<Value>
    ensures key { (a : View) → option_in a.held result ≡ key_alone (fields_in a.held named.now) }
    ensures owned { (a : View) → OwnsFields a named.now → OwnsOption a result }
{
    match named {
        [] => Some(Value::None),
        [field] => {
            if field.name.as_str() == "key" {
                Some(field.value)
            } else {
                None
            }
        }
        [_, _, ..] => None,
    }
}

/// The members of one value, or these values where they are more; `ArgBind` where there is none.
fn candidates(arena: &Arena, steps: u64, values: Values, at: Place) -> Result<Values, Stop>
    requires { OwnsAll (seen arena.now) values }
    ensures meaning { Tells (values_of (seen arena.now)) (candidates at (values_of (seen arena.now) values)) result arena.now steps steps }
    ensures owns { IfOk result (OwnsAll (seen arena.now)) }
{
    match values.as_slice() {
        [] => Err(refusal(arena, FaultKind::ArgBind, at)),
        [value] => members_taken(arena, steps, *value, at),
        [_, _, ..] => Ok(values),
    }
}

/// The members of a value, all before a key is asked for: `ValueKind` where it has none to have, `Steps` of a range that has more than
/// steps are left.
fn members_taken(arena: &Arena, steps: u64, value: Value, at: Place) -> Result<Values, Stop>
    requires { Owns (seen arena.now) value }
    ensures meaning { Tells (values_of (seen arena.now)) (members_taken at (value_of (seen arena.now) value)) result arena.now steps steps }
    ensures owns { IfOk result (OwnsAll (seen arena.now)) }
{
    if !has_members(value) {
        return Err(refusal(arena, FaultKind::ValueKind, at));
    }
    if !has_room(arena, steps, value) {
        return Err(refusal(arena, FaultKind::Steps, at));
    }
    Ok(members_of(arena, value)?)
}

/// Whether as many steps are left as a range has members; of another value it doesn't matter.
fn has_room(arena: &Arena, steps: u64, value: Value) -> bool
    requires { Owns (seen arena.now) value }
    ensures { result ≡ room_within steps (value_of (seen arena.now) value) }
{
    match value {
        Value::Range(_) => member_count(arena, value) <= u128::from(steps),
        _ => true,
    }
}

/// What is wanted of members with themselves as keys where the key is None, else what asks the key function.
fn keyed_by(
    arena: &mut Arena,
    steps: &mut u64,
    wanted: Wanted,
    key: Value,
    members: Values,
    at: Place,
) -> Result<Asked, Stop>
    requires key { Owns (seen arena.old) key }
    requires members { OwnsAll (seen arena.old) members }
    ensures { Asks (keyed_by at (wanted_of wanted) (value_of (seen arena.old) key) (values_of (seen arena.old) members)) result arena.old arena.new steps.old steps.new }
{
    if is_none(key) {
        let own = members.as_slice();
        let value = choose(arena, steps, wanted, own, own, at)?;
        Ok(Asked::Value(value))
    } else {
        Ok(Asked::Keys(wanted, key, members))
    }
}

/// Whether a value is None.
fn is_none(value: Value) -> bool
    ensures { result ≡ is_none value }
{
    matches!(value, Value::None)
}

/// Whether a value is None, or can be called.
fn is_key_function(value: Value) -> bool
    ensures { (a : View) → result ≡ is_key_function (value_of a value) }
{
    matches!(value, Value::None | Value::Func(_) | Value::Native(_))
}

/// Whether a value is None, or a bool.
fn is_flag(value: Value) -> bool
    ensures { (a : View) → result ≡ is_flag (value_of a value) }
{
    matches!(value, Value::None | Value::Bool(_))
}

/// Whether a value is `True`.
fn is_true(value: Value) -> bool
    ensures { (a : View) → result ≡ is_true (value_of a value) }
{
    match value {
        Value::Bool(told) => told,
        _ => false,
    }
}
