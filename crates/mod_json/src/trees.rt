// Trees as JSON.
ghost use Rattle.std.specs.Prelude.{◌≡◌, option_map};
ghost use Rattle.module_spec.specs.JsonCodec.{scalar_key, tree_data};
ghost use Rattle.serde_json.specs.View.{view};
ghost use Rattle.star_steps.specs.Names.{Place as PlaceOf, key_of, seen, tree_of};
ghost use Rattle.mod_json.specs.Walk.{Spends, array_of, each_item, each_member, entries_seen, items_seen, key_text, member_seen, object_of, tree_item, tree_member};

use crate::list::push_back;
use crate::object::{Entries, object_of};
use crate::scalars::{MEMBER_STEPS, number_json, paid_key, text_json};
use object_arena::Arena;
use serde_json::Value as Json;
use star_steps::{pay, refusal};
use ytt_base::fault::{FaultKind, Place, Stop};
use ytt_base::text::Text;
use ytt_base::tree::{Key, Tree};

/// What a tree is in JSON, where collections may nest so many levels.
#[cycle(trees)]
pub(crate) fn tree_json(
    arena: &Arena,
    place: Place,
    levels: u32,
    tree: &Tree,
    steps: &mut u64,
) -> Result<Json, Stop>
    ensures { Spends view result (seen arena.now) steps.old steps.new (tree_data place levels (tree_of tree.now)) }
{
    match tree {
        Tree::Null => Ok(Json::Null),
        Tree::Bool(b) => Ok(Json::Bool(*b)),
        Tree::Int(n) => number_json(arena, place, *n),
        Tree::Str(text) => text_json(arena, place, text, steps),
        Tree::List(trees) => list_json(arena, place, levels, trees.as_slice(), steps),
        Tree::Map(pairs) => map_json(arena, place, levels, pairs.as_slice(), steps),
    }
}

// ---- lists

#[cycle(trees)]
fn list_json(
    arena: &Arena,
    place: Place,
    levels: u32,
    trees: &[Tree],
    steps: &mut u64,
) -> Result<Json, Stop>
    ensures { Spends view result (seen arena.now) steps.old steps.new (array_of (tree_item place) levels place trees.now) }
{
    if levels == 0 {
        return Err(refusal(arena, FaultKind::TooDeep, place));
    }
    Ok(Json::Array(tree_items(arena, place, levels - 1, trees, steps)?))
}

#[cycle(trees)]
fn tree_items(
    arena: &Arena,
    place: Place,
    levels: u32,
    trees: &[Tree],
    steps: &mut u64,
) -> Result<Vec<Json>, Stop>
    ensures { Spends items_seen result (seen arena.now) steps.old steps.new (each_item (tree_item place levels) trees.now) }
{
    let mut items = Vec::new(arena.alloc());
    for tree in trees {
        let item = tree_item(arena, place, levels, tree, steps)?;
        push_back(&mut items, item)?;
    }
    Ok(items)
}

/// The same of a member, which takes a step.
#[cycle(trees)]
fn tree_item(
    arena: &Arena,
    place: Place,
    levels: u32,
    tree: &Tree,
    steps: &mut u64,
) -> Result<Json, Stop>
    ensures { Spends view result (seen arena.now) steps.old steps.new (tree_item place levels tree.now) }
{
    pay(arena, place, MEMBER_STEPS, steps)?;
    tree_json(arena, place, levels, tree, steps)
}

// ---- maps

#[cycle(trees)]
fn map_json(
    arena: &Arena,
    place: Place,
    levels: u32,
    pairs: &[(Key, Tree)],
    steps: &mut u64,
) -> Result<Json, Stop>
    ensures { Spends view result (seen arena.now) steps.old steps.new (object_of (tree_member place) levels place pairs.now) }
{
    if levels == 0 {
        return Err(refusal(arena, FaultKind::TooDeep, place));
    }
    let entries = tree_members(arena, place, levels - 1, pairs, steps)?;
    Ok(object_of(arena.alloc(), entries)?)
}

#[cycle(trees)]
fn tree_members(
    arena: &Arena,
    place: Place,
    levels: u32,
    pairs: &[(Key, Tree)],
    steps: &mut u64,
) -> Result<Entries, Stop>
    ensures { Spends entries_seen result (seen arena.now) steps.old steps.new (each_member (tree_member place levels) pairs.now) }
{
    let mut entries = Vec::new(arena.alloc());
    for (key, tree) in pairs {
        let entry = tree_member(arena, place, levels, key, tree, steps)?;
        push_back(&mut entries, entry)?;
    }
    Ok(entries)
}

#[cycle(trees)]
fn tree_member(
    arena: &Arena,
    place: Place,
    levels: u32,
    key: &Key,
    tree: &Tree,
    steps: &mut u64,
) -> Result<(String, Json), Stop>
    ensures { Spends member_seen result (seen arena.now) steps.old steps.new (tree_member place levels (key.now, tree.now)) }
{
    let key = paid_key(arena, place, text_in(key), steps)?;
    let json = tree_json(arena, place, levels, tree, steps)?;
    Ok((key, json))
}

/// The text that a key is, if it is one.
pub(crate) fn text_in(key: &Key) -> Option<&Text>
    ensures { (p : PlaceOf) → key_text p (option_map (λ t. t.now) result) ≡ scalar_key p (key_of key.now) }
{
    match key {
        Key::Str(text) => Some(text),
        _ => None,
    }
}
