// Arguments by name.
ghost use Rattle.std.specs.Prelude.{◌≡◌, IfOk, MatchOption, length};
ghost use Rattle.value_spec.specs.Binding.{field_of, has_field, has_twice, without_field};
ghost use Rattle.star_values.specs.Owns.{OwnsFields, OwnsOption};
ghost use Rattle.star_values.specs.View.{View, fields_in, option_in};
ghost use Rattle.star_calls.specs.Named.{NamedAt, OtherNames};

use star_values::{NamedValue, NamedValues, Value};
use std::alloc::Global;
use std::collections::HashSet;
use ytt_base::text::Memory;

/// As many names are compared with one another. More are put into a set.
const FEW_NAMES: usize = 8;

/// Whether an argument has this name.
pub(crate) fn has_name(named: &[NamedValue], name: &str) -> bool
    ensures { (a : View) → result ≡ has_field name.now (fields_in a.held named.now) }
{
    let mut rest = named;
    while let Some((field, more)) = rest.split_first() {
        if name == field.name.as_str() {
            return true;
        }
        rest = more;
    }
    false
}

/// Whether two arguments have one name. Its only error is want of memory.
pub fn has_twice(alloc: Global, named: &[NamedValue]) -> Result<bool, Memory>
    ensures { (a : View) → IfOk result (λ twice. twice ≡ has_twice (fields_in a.held named.now)) }
{
    if named.len() > FEW_NAMES {
        return many_have_twice(alloc, named);
    }
    Ok(few_have_twice(named))
}

/// The same of few arguments, each of which is compared with those behind it.
fn few_have_twice(named: &[NamedValue]) -> bool
    ensures { (a : View) → result ≡ has_twice (fields_in a.held named.now) }
{
    let mut rest = named;
    while let Some((field, more)) = rest.split_first() {
        if has_name(more, field.name.as_str()) {
            return true;
        }
        rest = more;
    }
    false
}

/// The same by a set of the names that were passed.
fn many_have_twice(alloc: Global, named: &[NamedValue]) -> Result<bool, Memory>
    ensures { (a : View) → IfOk result (λ twice. twice ≡ has_twice (fields_in a.held named.now)) }
{
    let mut names: HashSet<&str> = HashSet::new(alloc);
    let mut rest = named;
    while let Some((field, more)) = rest.split_first() {
        if !names.insert(field.name.as_str())? {
            return Ok(true);
        }
        rest = more;
    }
    Ok(false)
}

/// Takes the argument of this name out, if there is one.
pub(crate) fn take_named(named: &mut NamedValues, name: &str) -> Option<Value>
    ensures value { (a : View) → option_in a.held result ≡ field_of name.now (fields_in a.held named.old) }
    ensures left { (a : View) → fields_in a.held named.new ≡ without_field name.now (fields_in a.held named.old) }
    ensures owned { (a : View) → OwnsFields a named.old → OwnsOption a result × OwnsFields a named.new }
{
    match place_of(named.as_slice(), name) {
        Some(at) => Some(named.remove(at).value),
        None => None,
    }
}

/// The place of the first argument of this name, if there is one.
fn place_of(named: &[NamedValue], name: &str) -> Option<usize>
    ensures { MatchOption result (OtherNames name.now named.now (length named.now)) (λ at. NamedAt name.now named.now at) }
{
    for (at, field) in named.iter().enumerate() {
        if name == field.name.as_str() {
            return Some(at);
        }
    }
    None
}
