// Keys that stand twice in a map.
ghost use Rattle.std.specs.Prelude.{◌≡◌, ◌||◌, [], not, IfOk, OnOk, option_map};
ghost use Rattle.ytt_base.specs.Trees.{Scalar, same_key};
ghost use Rattle.yaml_noted.specs.View.{content_of, items_of, note_of};
ghost use Rattle.yaml_spec.specs.Noted.{key_of, twice, twice_among, twice_below};
ghost use Rattle.yaml_keys.specs.Seen.{is_seen};

use std::alloc::Global;
use yaml_keys::Seen;
use yaml_noted::{Content, NotedItem, NotedItems};
use ytt_base::text::Memory;
use ytt_base::tree::Key;

/// Adds the key of an item, and tells whether it is a new one. That of an item without a key is null.
fn add_key(alloc: Global, seen: &mut Seen, item: &NotedItem) -> Result<bool, Memory>
    ensures told { IfOk result (λ is_new. is_new ≡ not (is_seen (key_of (note_of item.now)) seen.old)) }
    ensures seen { OnOk result ((other : Scalar) → is_seen other seen.new ≡ (same_key other (key_of (note_of item.now)) || is_seen other seen.old)) }
{
    match &item.key {
        Some(key) => seen.add(alloc, key),
        None => seen.add(alloc, &Key::Null),
    }
}

/// The first item in a content whose key stands already in its map.
#[cycle(twice)]
#[tactic(auto, using(yaml_noted::proofs::Views::views))]
pub fn twice_in<'a>(alloc: Global, content: &'a Content) -> Result<Option<&'a NotedItem>, Memory>
    ensures { IfOk result (λ o. option_map (λ i. note_of i.now) o ≡ twice (content_of content.now)) }
{
    match content {
        Content::Scalar(_) => Ok(None),
        Content::Map(items) => twice_among(alloc, items),
        Content::List(items) => twice_below(alloc, items),
    }
}

/// The first item in the contents of these whose key stands already in its map.
#[cycle(twice)]
pub fn twice_below<'a>(
    alloc: Global,
    items: &'a NotedItems,
) -> Result<Option<&'a NotedItem>, Memory>
    ensures { IfOk result (λ o. option_map (λ i. note_of i.now) o ≡ twice_below (items_of items.now)) }
{
    for item in items.as_slice() {
        let found = twice_in(alloc, &item.content)?;
        if found.is_some() {
            return Ok(found);
        }
    }
    Ok(None)
}

/// The first of the items of a map, or of those in their contents, whose key stands already in its
/// map.
#[cycle(twice)]
fn twice_among<'a>(alloc: Global, items: &'a NotedItems) -> Result<Option<&'a NotedItem>, Memory>
    ensures { IfOk result (λ o. option_map (λ i. note_of i.now) o ≡ twice_among [] (items_of items.now)) }
{
    let mut seen = Seen::new();
    for item in items.as_slice() {
        if !add_key(alloc, &mut seen, item)? {
            return Ok(Some(item));
        }
        let found = twice_in(alloc, &item.content)?;
        if found.is_some() {
            return Ok(found);
        }
    }
    Ok(None)
}
