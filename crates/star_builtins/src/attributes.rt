// The attributes of values.
ghost use Rattle.std.specs.Prelude.{◌≡◌, ℕ, is_some};
ghost use Rattle.builtin_spec.specs.Builtins.{attribute_or, get_attribute_row, has_attribute_row};
ghost use Rattle.builtin_spec.specs.Attributes.{attribute_of, attribute_row, is_dict_method, is_list_method, method_if, or_missing};
ghost use Rattle.star_steps.specs.Names.{Gives, Owns, OwnsOption, get_or, none_value, seen, state_in, value_of};
ghost use Rattle.star_values.specs.Owns.{OwnsFields};
ghost use Rattle.star_values.specs.View.{View, fields_in, module_in, option_in};
ghost use Rattle.star_values.specs.declared.value.Value.TheVariants as value;

use crate::table::{dict_method_named, list_method_named};
use object_arena::{Answerer, Arena, NamedValue, Ref, Shape, Value};
use star_compare::fields;
use star_steps::{Given, refusal};
use star_text::{has_method, named_value};
use ytt_base::fault::{Fault, FaultKind, Place, Stop};
use ytt_base::text::Text;

/// An attribute of a value, or `KeyMissing` with its name: a field of a struct or a module, or a method of a text, a list or a
/// dict, which holds what it is of.
pub fn attribute(arena: &mut Arena, on: Value, name: &Text, at: Place) -> Given
    requires { Owns (seen arena.old) on }
    ensures { (n : ℕ) → Gives (attribute_row at (value_of (seen arena.old) on) name.now (state_in (seen arena.old) n)) result (seen arena.old) (seen arena.new) n }
{
    match on {
        Value::Struct(r) => given(named_value(fields(arena, r), name.as_str()), name, at),
        Value::Module(r) => given(named_value(exports(arena, r), name.as_str()), name, at),
        Value::Text(_) => method(arena, has_method(name.as_str()), on, name, at),
        Value::List(_) => method(arena, is_list_method(name.as_str()), on, name, at),
        Value::Dict(_) => method(arena, is_dict_method(name.as_str()), on, name, at),
        Value::None
        | Value::Bool(_)
        | Value::Int(_)
        | Value::Tuple(_)
        | Value::Range(_)
        | Value::Fragment(_)
        | Value::Func(_)
        | Value::Native(_) => given(None, name, at),
    }
}

/// The fields of a module.
pub(crate) fn exports(arena: &Arena, r: Ref) -> &[NamedValue]
    requires { Owns (seen arena.now) (value.Module r) }
    ensures fields { (module_in (get_or (seen arena.now).held r.at none_value)).1 ≡ fields_in (seen arena.now).held result.now }
    ensures owns { OwnsFields (seen arena.now) result.now }
{
    match arena.shape(r) {
        Shape::Module(_, fields) => fields.as_slice(),
        _ => unreachable!(),
    }
}

/// Whether lists have a method of this name.
fn is_list_method(name: &str) -> bool
    ensures { result ≡ is_list_method name.now }
{
    list_method_named(name).is_some()
}

/// Whether dicts have a method of this name.
fn is_dict_method(name: &str) -> bool
    ensures { result ≡ is_dict_method name.now }
{
    dict_method_named(name).is_some()
}

/// A method of a value, where there is one of this name.
fn method(arena: &mut Arena, there: bool, on: Value, name: &Text, at: Place) -> Given
    requires { Owns (seen arena.old) on }
    ensures { (n : ℕ) → Gives (or_missing at name.now (method_if there name.now (value_of (seen arena.old) on)) (state_in (seen arena.old) n)) result (seen arena.old) (seen arena.new) n }
{
    if there {
        Ok(arena.new_native(Answerer::Language, name.copy()?, Some(on))?)
    } else {
        given(None, name, at)
    }
}

/// An attribute, or `KeyMissing` with its name.
fn given(found: Option<Value>, name: &Text, at: Place) -> Given
    ensures { (a : View) (n : ℕ) → OwnsOption a found → Gives (or_missing at name.now (option_in a.held found) (state_in a n)) result a a n }
{
    match found {
        Some(value) => Ok(value),
        None => {
            let detail = name.copy()?;
            Err(Stop::Fault(Fault {
                kind: FaultKind::KeyMissing,
                place: Some(at),
                detail,
            }))
        }
    }
}

/// Whether a value has an attribute of this name.
fn is_attribute(arena: &Arena, on: Value, name: &str) -> bool
    requires { Owns (seen arena.now) on }
    ensures { result ≡ is_some (attribute_of (value_of (seen arena.now) on) name.now) }
{
    match on {
        Value::Struct(r) => named_value(fields(arena, r), name).is_some(),
        Value::Module(r) => named_value(exports(arena, r), name).is_some(),
        Value::Text(_) => has_method(name),
        Value::List(_) => is_list_method(name),
        Value::Dict(_) => is_dict_method(name),
        Value::None
        | Value::Bool(_)
        | Value::Int(_)
        | Value::Tuple(_)
        | Value::Range(_)
        | Value::Fragment(_)
        | Value::Func(_)
        | Value::Native(_) => false,
    }
}

/// Whether a value has an attribute, by its name, which is a text; else `ValueKind`.
pub(crate) fn has_attribute(arena: &Arena, on: Value, name: Value, at: Place) -> Given
    requires on { Owns (seen arena.now) on }
    requires name { Owns (seen arena.now) name }
    ensures { (n : ℕ) → Gives (has_attribute_row at (value_of (seen arena.now) on) (value_of (seen arena.now) name) (state_in (seen arena.now) n)) result (seen arena.now) (seen arena.now) n }
{
    match name {
        Value::Text(text) => Ok(Value::Bool(is_attribute(arena, on, arena.text(text).as_str()))),
        _ => Err(refusal(arena, FaultKind::ValueKind, at)),
    }
}

/// An attribute of a value, by its name, which is a text (else `ValueKind`), or another value where there is none and one is given.
pub(crate) fn get_attribute(
    arena: &mut Arena,
    on: Value,
    name: Value,
    given: bool,
    other: Value,
    at: Place,
) -> Given
    requires on { Owns (seen arena.old) on }
    requires name { Owns (seen arena.old) name }
    requires other { Owns (seen arena.old) other }
    ensures { (n : ℕ) → Gives (get_attribute_row at (value_of (seen arena.old) on) (value_of (seen arena.old) name) given (value_of (seen arena.old) other) (state_in (seen arena.old) n)) result (seen arena.old) (seen arena.new) n }
{
    match name {
        Value::Text(text) => {
            let name = arena.text(text).copy()?;
            attribute_or(arena, on, &name, given, other, at)
        }
        _ => Err(refusal(arena, FaultKind::ValueKind, at)),
    }
}

/// The same by a name.
fn attribute_or(
    arena: &mut Arena,
    on: Value,
    name: &Text,
    given: bool,
    other: Value,
    at: Place,
) -> Given
    requires on { Owns (seen arena.old) on }
    requires other { Owns (seen arena.old) other }
    ensures { (n : ℕ) → Gives (attribute_or at name.now given (value_of (seen arena.old) other) (attribute_of (value_of (seen arena.old) on) name.now) (state_in (seen arena.old) n)) result (seen arena.old) (seen arena.new) n }
{
    if given {
        if is_attribute(arena, on, name.as_str()) {
            attribute(arena, on, name, at)
        } else {
            Ok(other)
        }
    } else {
        attribute(arena, on, name, at)
    }
}
