// Fields of structs and pairs of dicts.
ghost use Rattle.std.specs.Prelude.{◌≡◌, ◌++◌, ◌∷◌, [], IfOk, OnOk};
ghost use Rattle.star_steps.specs.Names.{Grows, Owns, OwnsFields, OwnsPair, fields_in, get_or, none_value, pairs_in, seen, struct_in, value_of};
ghost use Rattle.star_values.specs.Owns.{Each};
ghost use Rattle.star_values.specs.declared.value.Value.TheVariants as value;
ghost use Rattle.value_spec.specs.Binding.{text_pairs};
ghost use Rattle.mod_basic.specs.Walks.{OwnsPairs, fields_from, name_in, pairs_of};

use indexmap::IndexMap;
use indexmap::map::Slice;
use object_arena::{Arena, NamedValue, NamedValues, Pairs, Ref, Value};
use sqlite_items::Items;
use star_compare::fields;
use std::alloc::Global;
use ytt_base::text::{Memory, Text};

/// Pairs of a key and a value.
pub(crate) type PairItems = Items<(Value, Value)>;

/// A copy of a dict's pairs.
pub(crate) fn copied_pairs(
    alloc: Global,
    pairs: Slice<'_, Value, Value>,
) -> Result<PairItems, Memory>
    ensures { IfOk result (λ ps. ps ≡ pairs.entry) }
{
    let mut all = Items::new(alloc);
    let mut rest = pairs;
    while let Some(((key, value), more)) = rest.split_first() {
        all.push((*key, *value))?;
        rest = more;
    }
    Ok(all)
}

/// The fields of a struct as pairs, whose keys are their names.
pub(crate) fn struct_pairs(arena: &mut Arena, of: Ref) -> Result<PairItems, Memory>
    requires { Owns (seen arena.old) (value.Struct of) }
    ensures pairs { IfOk result (λ ps. pairs_of (seen arena.new) ps ≡ text_pairs (struct_in (get_or (seen arena.old).held of.at none_value))) }
    ensures owned { IfOk result (OwnsPairs (seen arena.new)) }
    ensures store { (seen arena.new).store ≡ (seen arena.old).store }
    ensures grows { Grows (seen arena.old) (seen arena.new) }
{
    let fields = copied_fields(arena.alloc(), fields(arena, of))?;
    named_pairs(arena, fields.as_slice())
}

fn copied_fields(alloc: Global, fields: &[NamedValue]) -> Result<NamedValues, Memory>
    ensures { IfOk result (λ fs. fs ≡ fields.now) }
{
    let mut copies = Items::new(alloc);
    for field in fields {
        copies.push(NamedValue {
            name: field.name.copy()?,
            value: field.value,
        })?;
    }
    Ok(copies)
}

/// Fields as pairs, whose keys are their names.
fn named_pairs(arena: &mut Arena, named: &[NamedValue]) -> Result<PairItems, Memory>
    requires { OwnsFields (seen arena.old) named.now }
    ensures pairs { IfOk result (λ ps. pairs_of (seen arena.new) ps ≡ text_pairs (fields_in (seen arena.old).held named.now)) }
    ensures owned { IfOk result (OwnsPairs (seen arena.new)) }
    ensures store { (seen arena.new).store ≡ (seen arena.old).store }
    ensures grows { Grows (seen arena.old) (seen arena.new) }
{
    let mut pairs = Items::new(arena.alloc());
    let mut rest = named;
    while let Some((field, more)) = rest.split_first() {
        let key = arena.new_text(field.name.copy()?)?;
        pairs.push((key, field.value))?;
        rest = more;
    }
    Ok(pairs)
}

/// Pairs as fields: each name is the text that the key is.
pub(crate) fn fields_of(arena: &Arena, pairs: &[(Value, Value)]) -> Result<NamedValues, Memory>
    requires { OwnsPairs (seen arena.now) pairs.now }
    ensures fields { IfOk result (λ fs. fields_in (seen arena.now).held fs ≡ fields_from (pairs_of (seen arena.now) pairs.now)) }
    ensures owned { IfOk result (OwnsFields (seen arena.now)) }
{
    let mut fields = Items::new(arena.alloc());
    let mut rest = pairs;
    while let Some((pair, more)) = rest.split_first() {
        let name = name_of(arena, pair.0)?;
        fields.push(NamedValue {
            name,
            value: pair.1,
        })?;
        rest = more;
    }
    Ok(fields)
}

/// The text that a key is, or an empty one.
fn name_of(arena: &Arena, key: Value) -> Result<Text, Memory>
    requires { Owns (seen arena.now) key }
    ensures { IfOk result (λ t. t ≡ name_in (value_of (seen arena.now) key)) }
{
    match key {
        Value::Text(text) => arena.text(text).copy(),
        _ => Ok(Text::new(arena.alloc())),
    }
}

/// Pairs by their keys, for a dict. No key stands there twice, since no struct is made that has a name twice; where one did, no dict has
/// such pairs, and want of memory is told.
pub(crate) fn distinct(arena: &Arena, pairs: &[(Value, Value)]) -> Result<Pairs, Memory>
    requires { OwnsPairs (seen arena.now) pairs.now }
    ensures pairs { IfOk result (λ ps. pairs_in (seen arena.now).held ps.entries ≡ pairs_of (seen arena.now) pairs.now) }
    ensures owned { IfOk result (λ ps. Each (OwnsPair (seen arena.now)) ps.entries) }
{
    let mut all = IndexMap::new(arena.alloc());
    let mut rest = pairs;
    while let Some((pair, more)) = rest.split_first() {
        if arena.has_key(&all, pair.0) {
            return Err(Memory);
        }
        arena.put_pair(&mut all, pair.0, pair.1)?;
        rest = more;
    }
    Ok(all)
}

/// Puts an item behind others.
pub(crate) fn push<T: Drop>(items: &mut Items<T>, item: T) -> Result<(), Memory>
    ensures { OnOk result (items.new ≡ items.old ++ item ∷ []) }
{
    items.push(item)?;
    Ok(())
}
