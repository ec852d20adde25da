// Arguments by name, as they are looked up.
ghost use Rattle.std.specs.Prelude.{◌≡◌, IfOk};
ghost use Rattle.value_spec.specs.Binding.{field_of};
ghost use Rattle.star_values.specs.Owns.{OwnsFields, OwnsOption};
ghost use Rattle.star_values.specs.View.{View, fields_in, option_in};
ghost use Rattle.star_text.specs.ByName.{HasFirst, HasFirstIfAny, first_named};

use star_values::{CallArgs, NamedValue, Value};
use std::alloc::Global;
use std::collections::HashMap;
use ytt_base::text::Memory;

/// So many names are looked up one by one. Of more a map is made.
const FEW_NAMES: usize = 8;

/// Arguments, and where those by name are more than a few a map of their values.
#[derive(Drop)]
pub(crate) struct ByName<'a> {
    pub(crate) given: &'a CallArgs,
    pub(crate) values: Option<HashMap<&'a str, Value>>,
}

impl<'a> ByName<'a> {
    /// These arguments. Its only error is want of memory.
    pub(crate) fn of(alloc: Global, given: &'a CallArgs) -> Result<ByName<'a>, Memory>
        ensures given { IfOk result (λ args. args.given.now ≡ given.now) }
        ensures first { IfOk result (λ args. HasFirstIfAny args.values given.now.named) }
    {
        let named = given.named.as_slice();
        let values = if named.len() > FEW_NAMES {
            Some(values_by_name(alloc, named)?)
        } else {
            None
        };
        Ok(ByName { given, values })
    }

    /// The first value of this name, if there is one.
    pub(crate) fn value(&self, name: &str) -> Option<Value>
        requires { HasFirstIfAny self.now.values self.now.given.now.named }
        ensures value { (a : View) → option_in a.held result ≡ field_of name.now (fields_in a.held self.now.given.now.named) }
        ensures owned { (a : View) → OwnsFields a self.now.given.now.named → OwnsOption a result }
    {
        first_found(self.given.named.as_slice(), &self.values, name)
    }
}

/// The first values of all names.
fn values_by_name<'a>(
    alloc: Global,
    named: &'a [NamedValue],
) -> Result<HashMap<&'a str, Value>, Memory>
    ensures { IfOk result (λ values. HasFirst values named.now) }
{
    let mut values: HashMap<&'a str, Value> = HashMap::new(alloc);
    let mut rest = named;
    while let Some((field, before)) = rest.split_last() {
        values.insert(field.name.as_str(), field.value)?;
        rest = before;
    }
    Ok(values)
}

/// The first value of this name, by the map if there is one.
fn first_found(
    named: &[NamedValue],
    values: &Option<HashMap<&str, Value>>,
    name: &str,
) -> Option<Value>
    requires { HasFirstIfAny values.now named.now }
    ensures { result ≡ first_named name.now named.now }
{
    match values {
        Some(values) => values.get(name).copied(),
        None => first_value(named, name),
    }
}

/// The first value of this name, if there is one.
fn first_value(named: &[NamedValue], name: &str) -> Option<Value>
    ensures { result ≡ first_named name.now named.now }
{
    let mut rest = named;
    while let Some((field, more)) = rest.split_first() {
        if name == field.name.as_str() {
            return Some(field.value);
        }
        rest = more;
    }
    None
}
