// Items that were built, as JSON.
ghost use Rattle.std.specs.Prelude.{◌≡◌, List, option_map};
ghost use Rattle.module_spec.specs.JsonCodec.{body_data, child_key};
ghost use Rattle.serde_json.specs.View.{view};
ghost use Rattle.star_steps.specs.Names.{Owns, Place as PlaceOf, body_in, scalar_key, seen, value_of};
ghost use Rattle.star_values.specs.declared.value.Value.TheVariants as value;
ghost use Rattle.mod_json.specs.Walk.{Spends, array_of, built_item, built_member, each_item, each_member, entries_seen, items_seen, key_text, member_seen, object_of, value_data};

use crate::list::push_back;
use crate::object::{Entries, object_of};
use crate::scalars::{MEMBER_STEPS, paid_key};
use crate::trees::{text_in, tree_json};
use object_arena::{Arena, BuiltItem, BuiltValue, ItemKind, Ref, Shape};
use serde_json::Value as Json;
use star_steps::{pay, refusal};
use ytt_base::fault::{FaultKind, Place, Stop};
use ytt_base::text::Text;

/// What a fragment is in JSON, where collections may nest so many levels. One of documents is none.
pub(crate) fn fragment_json(
    arena: &Arena,
    place: Place,
    levels: u32,
    fragment: Ref,
    steps: &mut u64,
) -> Result<Json, Stop>
    requires { Owns (seen arena.now) (value.Fragment fragment) }
    ensures { Spends view result (seen arena.now) steps.old steps.new (value_data levels place (value_of (seen arena.now) (value.Fragment fragment))) }
{
    match arena.shape(fragment) {
        Shape::Fragment(ItemKind::Pair, items) => {
            map_json(arena, place, levels, items.as_slice(), steps)
        }
        Shape::Fragment(ItemKind::Element, items) => {
            list_json(arena, place, levels, items.as_slice(), steps)
        }
        Shape::Fragment(ItemKind::Document, _) => { Err(refusal(arena, FaultKind::NotYaml, place)) }
        _ => unreachable!(),
    }
}

/// What an item holds, in JSON.
#[cycle(built)]
fn body_json(
    arena: &Arena,
    place: Place,
    levels: u32,
    body: &BuiltValue,
    steps: &mut u64,
) -> Result<Json, Stop>
    ensures { Spends view result (seen arena.now) steps.old steps.new (body_data place levels (body_in (seen arena.now).held body.now)) }
{
    match body {
        BuiltValue::One(tree) => tree_json(arena, place, levels, tree, steps),
        BuiltValue::Map(items) => map_json(arena, place, levels, items.as_slice(), steps),
        BuiltValue::List(items) => list_json(arena, place, levels, items.as_slice(), steps),
    }
}

// ---- elements

#[cycle(built)]
fn list_json(
    arena: &Arena,
    place: Place,
    levels: u32,
    items: &[BuiltItem],
    steps: &mut u64,
) -> Result<Json, Stop>
    ensures { Spends view result (seen arena.now) steps.old steps.new (array_of (built_item (seen arena.now).held place) levels place items.now) }
{
    if levels == 0 {
        return Err(refusal(arena, FaultKind::TooDeep, place));
    }
    Ok(Json::Array(built_items(arena, place, levels - 1, items, steps)?))
}

#[cycle(built)]
fn built_items(
    arena: &Arena,
    place: Place,
    levels: u32,
    items: &[BuiltItem],
    steps: &mut u64,
) -> Result<Vec<Json>, Stop>
    ensures { Spends items_seen result (seen arena.now) steps.old steps.new (each_item (built_item (seen arena.now).held place levels) items.now) }
{
    let mut all = Vec::new(arena.alloc());
    for item in items {
        let json = built_item(arena, place, levels, item, steps)?;
        push_back(&mut all, json)?;
    }
    Ok(all)
}

/// The same of a member, which takes a step.
#[cycle(built)]
fn built_item(
    arena: &Arena,
    place: Place,
    levels: u32,
    item: &BuiltItem,
    steps: &mut u64,
) -> Result<Json, Stop>
    ensures { Spends view result (seen arena.now) steps.old steps.new (built_item (seen arena.now).held place levels item.now) }
{
    pay(arena, place, MEMBER_STEPS, steps)?;
    body_json(arena, place, levels, &item.value, steps)
}

// ---- pairs

#[cycle(built)]
fn map_json(
    arena: &Arena,
    place: Place,
    levels: u32,
    items: &[BuiltItem],
    steps: &mut u64,
) -> Result<Json, Stop>
    ensures { Spends view result (seen arena.now) steps.old steps.new (object_of (built_member (seen arena.now).held place) levels place items.now) }
{
    if levels == 0 {
        return Err(refusal(arena, FaultKind::TooDeep, place));
    }
    let entries = built_members(arena, place, levels - 1, items, steps)?;
    Ok(object_of(arena.alloc(), entries)?)
}

#[cycle(built)]
fn built_members(
    arena: &Arena,
    place: Place,
    levels: u32,
    items: &[BuiltItem],
    steps: &mut u64,
) -> Result<Entries, Stop>
    ensures { Spends entries_seen result (seen arena.now) steps.old steps.new (each_member (built_member (seen arena.now).held place levels) items.now) }
{
    let mut entries = Vec::new(arena.alloc());
    for item in items {
        let entry = built_member(arena, place, levels, item, steps)?;
        push_back(&mut entries, entry)?;
    }
    Ok(entries)
}

#[cycle(built)]
fn built_member(
    arena: &Arena,
    place: Place,
    levels: u32,
    item: &BuiltItem,
    steps: &mut u64,
) -> Result<(String, Json), Stop>
    ensures { Spends member_seen result (seen arena.now) steps.old steps.new (built_member (seen arena.now).held place levels item.now) }
{
    let key = paid_key(arena, place, key_text(item), steps)?;
    let json = body_json(arena, place, levels, &item.value, steps)?;
    Ok((key, json))
}

/// The text that the key of an item is, if it has one that is a text.
fn key_text(item: &BuiltItem) -> Option<&Text>
    ensures { (p : PlaceOf) → key_text p (option_map (λ t. t.now) result) ≡ child_key p (scalar_key item.now.key) }
{
    match &item.key {
        Some(key) => text_in(key),
        None => None,
    }
}
