// The names of the fields of structs and modules.
ghost use Rattle.std.specs.Prelude.{◌≡◌, IfOk, map as each};
ghost use Rattle.builtin_spec.specs.Builtins.{field_names, field_names_row, names_of};
ghost use Rattle.star_steps.specs.Names.{Grows, Owns, OwnsAll, seen, text_value, value_of, values_of};
ghost use Rattle.star_values.specs.View.{View, fields_in};
ghost use Rattle.star_builtins.specs.Asked.{Yields};

use crate::attributes::exports;
use object_arena::{Arena, NamedValue, Value, Values};
use sqlite_items::Items;
use star_compare::fields;
use star_sorting::in_order;
use star_steps::{Given, pay};
use std::alloc::Global;
use ytt_base::fault::Place;
use ytt_base::text::{Memory, Text};

/// A new list of the names of the fields of a struct or a module, as texts in order, after a step for each; nothing else has any.
pub(crate) fn field_names(arena: &mut Arena, steps: &mut u64, value: Value, at: Place) -> Given
    requires { Owns (seen arena.old) value }
    ensures { Yields (field_names_row at (value_of (seen arena.old) value)) result arena.old arena.new steps.old steps.new }
{
    pay(arena, at, fields_of(arena, value).len() as u128, steps)?;
    let names = names_of(arena.alloc(), fields_of(arena, value))?;
    let texts = texts(arena, names.as_slice())?;
    let ordered = in_order(arena, false, texts.as_slice(), texts.as_slice())?;
    Ok(arena.new_list(ordered.as_slice())?)
}

/// The fields of a struct or a module; nothing else has any.
fn fields_of(arena: &Arena, value: Value) -> &[NamedValue]
    requires { Owns (seen arena.now) value }
    ensures { names_of (fields_in (seen arena.now).held result.now) ≡ field_names (value_of (seen arena.now) value) }
{
    match value {
        Value::Struct(r) => fields(arena, r),
        Value::Module(r) => exports(arena, r),
        Value::None
        | Value::Bool(_)
        | Value::Int(_)
        | Value::Text(_)
        | Value::List(_)
        | Value::Dict(_)
        | Value::Tuple(_)
        | Value::Range(_)
        | Value::Fragment(_)
        | Value::Func(_)
        | Value::Native(_) => &[],
    }
}

/// The names of fields.
fn names_of(alloc: Global, fields: &[NamedValue]) -> Result<Items<Text>, Memory>
    ensures { (a : View) → IfOk result (λ ts. each text_value ts ≡ names_of (fields_in a.held fields.now)) }
{
    let mut names = Items::new(alloc);
    let mut rest = fields;
    while let Some((field, more)) = rest.split_first() {
        names.push(field.name.copy()?)?;
        rest = more;
    }
    Ok(names)
}

/// These texts as values.
fn texts(arena: &mut Arena, names: &[Text]) -> Result<Values, Memory>
    ensures values { IfOk result (λ vs. values_of (seen arena.new) vs ≡ each text_value names.now) }
    ensures owns { IfOk result (OwnsAll (seen arena.new)) }
    ensures store { (seen arena.new).store ≡ (seen arena.old).store }
    ensures grows { Grows (seen arena.old) (seen arena.new) }
{
    let mut texts = Items::new(arena.alloc());
    let mut rest = names;
    while let Some((first, more)) = rest.split_first() {
        let text = arena.new_text(first.copy()?)?;
        texts.push(text)?;
        rest = more;
    }
    Ok(texts)
}
