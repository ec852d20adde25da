// What is left of the arguments, and what a parameter of a name gets.
ghost use Rattle.std.specs.Prelude.{◌≡◌, ◌++◌, ◌∷◌, [], OnOk, OnSome};
ghost use Rattle.value_spec.specs.Binding.{field_of, or_default, without_field};
ghost use Rattle.star_values.specs.Owns.{OwnsFields, Owns, OwnsOption};
ghost use Rattle.star_values.specs.View.{View, fields_in, option_in, value_of, values_of};
ghost use Rattle.star_calls.specs.Left.{OwnsRest, got_by, rest_behind, rest_of};

use crate::names::{has_name, take_named};
use star_values::{NamedValues, Value, Values};
use ytt_base::text::Memory;

/// What is left for the parameters that are still to come, and the values that those before got.
#[derive(Drop)]
pub(crate) struct Left<'a> {
    pub positions: &'a [Value],
    pub defaults: &'a [Value],
    pub named: NamedValues,
    pub got: Values,
}

/// Puts a value behind those that were got.
pub(crate) fn put(left: &mut Left<'_>, value: Value) -> Result<(), Memory>
    ensures left { (a : View) → OnOk result (rest_of a left.new ≡ record (rest_of a left.old) { got = values_of a left.old.got ++ value_of a value ∷ [] }) }
    ensures owned { (a : View) → Owns a value → OwnsRest a left.old → OnOk result (OwnsRest a left.new) }
{
    Ok(left.got.push(value)?)
}

/// What a parameter of this name gets: the first argument by position, which none by name may repeat, or the argument of its name,
/// or its default. It is taken from what is left.
pub(crate) fn take_for(left: &mut Left<'_>, name: &str, default: Option<Value>) -> Option<Value>
    ensures value { (a : View) → option_in a.held result ≡ got_by name.now (option_in a.held default) (values_of a left.old.positions.now) (fields_in a.held left.old.named) }
    ensures left { OnSome result ((a : View) → rest_of a left.new ≡ rest_behind name.now (rest_of a left.old)) }
    ensures owned { (a : View) → OwnsOption a default → OwnsRest a left.old → OwnsOption a result × OwnsRest a left.new }
{
    match left.positions.split_first() {
        None => by_name(&mut left.named, name, default),
        Some((first, more)) => {
            if has_name(left.named.as_slice(), name) {
                return None;
            }
            let value = *first;
            left.positions = more;
            Some(value)
        }
    }
}

/// The argument of this name, which is taken out, or the default.
fn by_name(named: &mut NamedValues, name: &str, default: Option<Value>) -> Option<Value>
    ensures value { (a : View) → option_in a.held result ≡ or_default (field_of name.now (fields_in a.held named.old)) (option_in a.held default) }
    ensures left { (a : View) → fields_in a.held named.new ≡ without_field name.now (fields_in a.held named.old) }
    ensures owned { (a : View) → OwnsOption a default → OwnsFields a named.old → OwnsOption a result × OwnsFields a named.new }
{
    match take_named(named, name) {
        Some(value) => Some(value),
        None => default,
    }
}
