// Items that are added to those of a collection.
ghost use Rattle.std.specs.Prelude.{◌≡◌, ◌<◌, ◌||◌, ◌∷◌, List, not, IfOk, OnErr, OnOk, length};
ghost use Rattle.std.specs.Option.{IfSome};
ghost use Rattle.ytt_base.specs.declared.fault.FaultKind.TheVariants as kind;
ghost use Rattle.ytt_base.specs.declared.fault.Stop.TheVariants as stop;
ghost use Rattle.ytt_base.specs.Trees.{Scalar};
ghost use Rattle.yaml_keys.specs.Seen.{is_seen};
ghost use Rattle.star_values.specs.declared.value.BuiltItem.{BuiltItem};
ghost use Rattle.star_values.specs.Owns.{OwnsBuilt, OwnsItem};
ghost use Rattle.star_values.specs.View.{View, built_in, child_in, notes_in, scalar_key};
ghost use Rattle.node_build.specs.Positions.{AreKnown, Finds, Leaves, Stands, fault_with, is_known, position_of, undone};
ghost use Rattle.template_meaning.specs.Adding.{add_all, add_child, key_shown, keys_equal, overrides};
ghost use Rattle.value_spec.specs.Values as plain;

use crate::list::{make_room, push};
use crate::place::{Spot, Undo, place, take_out};
use object_arena::{BuiltItem, BuiltNotes};
use sqlite_items::Items;
use star_fragments::copy_item;
use std::alloc::Global;
use yaml_keys::Seen;
use yaml_styles::key_text;
use ytt_base::fault::{Fault, FaultKind, Place, Stop};
use ytt_base::text::{Memory, Text};
use ytt_base::tree::Key;

/// Whether both have a key, and it is the same.
fn same_keys(first: &Option<Key>, second: &Option<Key>) -> bool
    ensures { result ≡ keys_equal (scalar_key first.now) (scalar_key second.now) }
{
    match first {
        None => false,
        Some(a) => match second {
            None => false,
            Some(b) => a.is_same(b),
        },
    }
}

/// Where the first item with this key stands.
fn position(items: &[BuiltItem], key: &Option<Key>) -> Option<usize>
    ensures value { result ≡ position_of (scalar_key key.now) items.now }
    ensures within { IfSome result (λ i. i < length items.now) }
{
    for (i, item) in items.iter().enumerate() {
        if same_keys(&item.key, key) {
            return Some(i);
        }
    }
    None
}

/// Whether the notes let a pair take the place of the one that has its key.
fn overrides(notes: &BuiltNotes) -> bool
    ensures { (held : List plain.Value) → result ≡ overrides (notes_in held notes.now) }
{
    for note in notes.as_slice() {
        if note.name.as_str() == "yaml/map-key-override" {
            return true;
        }
    }
    false
}

/// The refusal of a key that stands in its map already.
fn key_twice(alloc: Global, place: Place, key: &Option<Key>) -> Result<Stop, Memory>
    ensures { IfOk result (λ s. s ≡ stop.Fault (fault_with kind.KeyTwice place (key_shown (scalar_key key.now)))) }
{
    let detail = match key {
        None => Text::new(alloc),
        Some(key) => key_text(alloc, key)?,
    };
    Ok(Stop::Fault(Fault {
        kind: FaultKind::KeyTwice,
        place: Some(place),
        detail,
    }))
}

/// Adds the key of an item to the keys of its collection, and tells whether it is a new one. An item without a key has
/// always a new one.
fn is_new_key(alloc: Global, keys: &mut Seen, key: &Option<Key>) -> Result<bool, Memory>
    ensures told { IfOk result (λ is_new. is_new ≡ not (is_known (scalar_key key.now) keys.old)) }
    ensures seen { OnOk result ((other : Scalar) → is_seen other keys.new ≡ (keys_equal (Some other) (scalar_key key.now) || is_seen other keys.old)) }
    ensures kept { OnErr result ((other : Scalar) → is_seen other keys.new ≡ is_seen other keys.old) }
{
    match key {
        None => Ok(true),
        Some(key) => keys.add(alloc, key),
    }
}

/// Where an item with this key comes: behind the others, or in the place of the one with its key where its notes say so.
/// Else a key that stands there already is `KeyTwice`, at the item's place. A new key takes no search.
pub(crate) fn spot_for(
    alloc: Global,
    keys: &mut Seen,
    items: &[BuiltItem],
    place: Place,
    key: &Option<Key>,
    notes: &BuiltNotes,
) -> Result<Spot, Stop>
    requires { AreKnown keys.old items.now }
    ensures still { (is : List BuiltItem) → AreKnown keys.old is → AreKnown keys.new is }
    ensures known { OnOk result ((item : BuiltItem) → item.key ≡ key.now → AreKnown keys.new (item ∷ items.now)) }
    ensures stands { IfOk result (λ spot. Stands spot items.now) }
    ensures spot { Finds place key.now notes.now items.now result }
{
    if is_new_key(alloc, keys, key)? {
        return Ok(Spot::Behind);
    }
    match position(items, key) {
        None => Ok(Spot::Behind),
        Some(at) => {
            if overrides(notes) {
                Ok(Spot::At(at))
            } else {
                Err(key_twice(alloc, place, key)?)
            }
        }
    }
}

/// Adds a copy of an item, and puts into the log how it is taken out again.
fn add_copy(
    alloc: Global,
    items: &mut Vec<BuiltItem>,
    keys: &mut Seen,
    item: &BuiltItem,
    log: &mut Items<Undo>,
) -> Result<(), Stop>
    requires { AreKnown keys.old items.old.items }
    ensures known { AreKnown keys.new items.new.items }
    ensures still { (is : List BuiltItem) → AreKnown keys.old is → AreKnown keys.new is }
    ensures undone { undone log.new items.new.items ≡ undone log.old items.old.items }
    ensures meaning { Leaves result items.new.items (λ held. add_child (built_in held items.old.items) (child_in held item.now)) }
    ensures owned { (a : View) → OwnsItem a item.now → OwnsBuilt a items.old.items → OwnsBuilt a items.new.items }
{
    let spot = spot_for(alloc, keys, items, item.place, &item.key, &item.notes)?;
    make_room(items)?;
    let copy = copy_item(alloc, item)?;
    if let Err(_) = push(log, Undo::Behind) {
        drop(copy);
        return Err(Stop::Memory);
    }
    let step = place(items, spot, copy);
    log.set(log.len() - 1, step);
    Ok(())
}

/// Adds copies of items, each as its key says.
fn add_copies(
    alloc: Global,
    items: &mut Vec<BuiltItem>,
    keys: &mut Seen,
    more: &[BuiltItem],
    log: &mut Items<Undo>,
) -> Result<(), Stop>
    requires { AreKnown keys.old items.old.items }
    ensures known { AreKnown keys.new items.new.items }
    ensures still { (is : List BuiltItem) → AreKnown keys.old is → AreKnown keys.new is }
    ensures undone { undone log.new items.new.items ≡ undone log.old items.old.items }
    ensures meaning { Leaves result items.new.items (λ held. add_all (built_in held items.old.items) (built_in held more.now)) }
    ensures owned { (a : View) → OwnsBuilt a more.now → OwnsBuilt a items.old.items → OwnsBuilt a items.new.items }
{
    for item in more {
        add_copy(alloc, items, keys, item, log)?;
    }
    Ok(())
}

/// The same, where a refusal leaves the items as they were.
pub(crate) fn add_many(
    alloc: Global,
    items: &mut Vec<BuiltItem>,
    keys: &mut Seen,
    more: &[BuiltItem],
) -> Result<(), Stop>
    requires { AreKnown keys.old items.old.items }
    ensures known { AreKnown keys.new items.new.items }
    ensures meaning { Leaves result items.new.items (λ held. add_all (built_in held items.old.items) (built_in held more.now)) }
    ensures err { OnErr result (items.new.items ≡ items.old.items) }
    ensures owned { (a : View) → OwnsBuilt a more.now → OwnsBuilt a items.old.items → OwnsBuilt a items.new.items }
{
    let mut log = Items::new(alloc);
    let answer = add_copies(alloc, items, keys, more, &mut log);
    if answer.is_err() {
        take_out(items, log);
    }
    answer
}
