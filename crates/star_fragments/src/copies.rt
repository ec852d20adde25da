// Copies of what was built.
ghost use Rattle.std.specs.Prelude.{◌≡◌};
ghost use Rattle.star_steps.specs.Names.{IfOk};

use object_arena::{
    Built, BuiltItem, BuiltNote, BuiltNotes, BuiltValue, CallArgs, NamedValue, NamedValues,
};
use sqlite_items::Items;
use std::alloc::Global;
use ytt_base::text::Memory;
use ytt_base::tree::Key;

fn copy_fields(alloc: Global, fields: &NamedValues) -> Result<NamedValues, Memory>
    ensures { IfOk result (λ fs. fs ≡ fields.now) }
{
    let mut copies = Items::new(alloc);
    for field in fields.as_slice() {
        copies.push(NamedValue {
            name: field.name.copy()?,
            value: field.value,
        })?;
    }
    Ok(copies)
}

/// A copy of the arguments of a call. Its only error is want of memory.
pub fn copy_args(alloc: Global, args: &CallArgs) -> Result<CallArgs, Memory>
    ensures { IfOk result (λ a. a ≡ args.now) }
{
    Ok(CallArgs {
        positional: Items::from_slice(alloc, args.positional.as_slice())?,
        named: copy_fields(alloc, &args.named)?,
    })
}

fn copy_notes(alloc: Global, notes: &BuiltNotes) -> Result<BuiltNotes, Memory>
    ensures { IfOk result (λ ns. ns ≡ notes.now) }
{
    let mut copies = Items::new(alloc);
    for note in notes.as_slice() {
        copies.push(BuiltNote {
            name: note.name.copy()?,
            args: copy_args(alloc, &note.args)?,
        })?;
    }
    Ok(copies)
}

fn copy_key(key: &Option<Key>) -> Result<Option<Key>, Memory>
    ensures { IfOk result (λ k. k ≡ key.now) }
{
    match key {
        None => Ok(None),
        Some(key) => Ok(Some(key.copy()?)),
    }
}

/// A copy of what an item holds.
#[cycle(copies)]
pub fn copy_value(alloc: Global, value: &BuiltValue) -> Result<BuiltValue, Memory>
    ensures { IfOk result (λ v. v ≡ value.now) }
{
    match value {
        BuiltValue::One(tree) => Ok(BuiltValue::One(tree.copy(alloc)?)),
        BuiltValue::Map(items) => Ok(BuiltValue::Map(copy_items(alloc, items)?)),
        BuiltValue::List(items) => Ok(BuiltValue::List(copy_items(alloc, items)?)),
    }
}

/// A copy of an item.
#[cycle(copies)]
pub fn copy_item(alloc: Global, item: &BuiltItem) -> Result<BuiltItem, Memory>
    ensures { IfOk result (λ i. i ≡ item.now) }
{
    let key = copy_key(&item.key)?;
    let notes = copy_notes(alloc, &item.notes)?;
    let value = copy_value(alloc, &item.value)?;
    Ok(BuiltItem {
        place: item.place,
        key,
        notes,
        value,
    })
}

/// Copies of items.
#[cycle(copies)]
pub fn copy_items(alloc: Global, items: &Built) -> Result<Built, Memory>
    ensures { IfOk result (λ is. is ≡ items.now) }
{
    let mut copies = Items::new(alloc);
    for item in items.as_slice() {
        copies.push(copy_item(alloc, item)?)?;
    }
    Ok(copies)
}
