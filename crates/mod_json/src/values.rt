// Values as JSON.
ghost use Rattle.std.specs.Prelude.{◌≡◌, ◌<◌, length, option_map, slice_get, Some};
ghost use Rattle.module_spec.specs.JsonCodec.{key_data};
ghost use Rattle.serde_json.specs.View.{view};
ghost use Rattle.star_steps.specs.Names.{Owns, OwnsAll, OwnsField, OwnsFields, OwnsPair, Place as PlaceOf, fields_in, pair_in, pairs_at, seen, struct_value, value_of, values_of};
ghost use Rattle.star_values.specs.declared.value.Value.TheVariants as value;
ghost use Rattle.mod_json.specs.View.{field_pair, field_pairs};
ghost use Rattle.mod_json.specs.Walk.{Spends, array_of, each_item, each_member, entries_seen, items_seen, key_text, member_seen, object_of, value_data, value_item, value_member};

use crate::built::fragment_json;
use crate::list::push_back;
use crate::object::{Entries, object_of};
use crate::scalars::{MEMBER_STEPS, number_json, paid_key, text_json};
use object_arena::{Arena, NamedValue, NamedValues, Ref, Shape, Value};
use serde_json::Value as Json;
use star_compare::pair_count;
use star_steps::{pay, refusal, tuple_members};
use ytt_base::fault::{FaultKind, Place, Stop};
use ytt_base::text::Text;

/// What a value is in JSON, where collections may nest so many levels.
#[cycle(values)]
pub(crate) fn value_json(
    arena: &Arena,
    place: Place,
    levels: u32,
    value: Value,
    steps: &mut u64,
) -> Result<Json, Stop>
    requires { Owns (seen arena.now) value }
    ensures { Spends view result (seen arena.now) steps.old steps.new (value_data levels place (value_of (seen arena.now) value)) }
{
    match value {
        Value::None => Ok(Json::Null),
        Value::Bool(b) => Ok(Json::Bool(b)),
        Value::Int(n) => number_json(arena, place, n),
        Value::Text(text) => text_json(arena, place, arena.text(text), steps),
        Value::List(list) => list_json(arena, place, levels, arena.list(list), steps),
        Value::Tuple(tuple) => {
            list_json(arena, place, levels, tuple_members(arena, tuple), steps)
        }
        Value::Dict(dict) => dict_json(arena, place, levels, dict, steps),
        Value::Struct(of) => struct_json(arena, place, levels, fields_of(arena, of), steps),
        Value::Fragment(fragment) => fragment_json(arena, place, levels, fragment, steps),
        _ => Err(refusal(arena, FaultKind::NotYaml, place)),
    }
}

// ---- lists and tuples

#[cycle(values)]
fn list_json(
    arena: &Arena,
    place: Place,
    levels: u32,
    members: &[Value],
    steps: &mut u64,
) -> Result<Json, Stop>
    requires { OwnsAll (seen arena.now) members.now }
    ensures { Spends view result (seen arena.now) steps.old steps.new (array_of (value_item place) levels place (values_of (seen arena.now) members.now)) }
{
    if levels == 0 {
        return Err(refusal(arena, FaultKind::TooDeep, place));
    }
    Ok(Json::Array(value_items(arena, place, levels - 1, members, steps)?))
}

#[cycle(values)]
fn value_items(
    arena: &Arena,
    place: Place,
    levels: u32,
    members: &[Value],
    steps: &mut u64,
) -> Result<Vec<Json>, Stop>
    requires { OwnsAll (seen arena.now) members.now }
    ensures { Spends items_seen result (seen arena.now) steps.old steps.new (each_item (value_item place levels) (values_of (seen arena.now) members.now)) }
{
    let mut items = Vec::new(arena.alloc());
    for member in members {
        let item = value_item(arena, place, levels, *member, steps)?;
        push_back(&mut items, item)?;
    }
    Ok(items)
}

/// The same of a member, which takes a step.
#[cycle(values)]
fn value_item(
    arena: &Arena,
    place: Place,
    levels: u32,
    value: Value,
    steps: &mut u64,
) -> Result<Json, Stop>
    requires { Owns (seen arena.now) value }
    ensures { Spends view result (seen arena.now) steps.old steps.new (value_item place levels (value_of (seen arena.now) value)) }
{
    pay(arena, place, MEMBER_STEPS, steps)?;
    value_json(arena, place, levels, value, steps)
}

// ---- dicts

#[cycle(values)]
fn dict_json(
    arena: &Arena,
    place: Place,
    levels: u32,
    dict: Ref,
    steps: &mut u64,
) -> Result<Json, Stop>
    requires { Owns (seen arena.now) (value.Dict dict) }
    ensures { Spends view result (seen arena.now) steps.old steps.new (object_of (value_member place) levels place (pairs_at dict.at (seen arena.now).store)) }
{
    if levels == 0 {
        return Err(refusal(arena, FaultKind::TooDeep, place));
    }
    let entries = dict_members(arena, place, levels - 1, dict, steps)?;
    Ok(object_of(arena.alloc(), entries)?)
}

#[cycle(values)]
fn dict_members(
    arena: &Arena,
    place: Place,
    levels: u32,
    dict: Ref,
    steps: &mut u64,
) -> Result<Entries, Stop>
    requires { Owns (seen arena.now) (value.Dict dict) }
    ensures { Spends entries_seen result (seen arena.now) steps.old steps.new (each_member (value_member place levels) (pairs_at dict.at (seen arena.now).store)) }
{
    let mut entries = Vec::new(arena.alloc());
    for i in 0..pair_count(arena, dict) {
        let entry = dict_member(arena, place, levels, pair_at(arena, dict, i), steps)?;
        push_back(&mut entries, entry)?;
    }
    Ok(entries)
}

/// The pair of a dict at a place, of which there is one.
fn pair_at(arena: &Arena, dict: Ref, at: u64) -> (Value, Value)
    requires dict { Owns (seen arena.now) (value.Dict dict) }
    requires at { at < length (pairs_at dict.at (seen arena.now).store) }
    ensures pair { slice_get (pairs_at dict.at (seen arena.now).store) at ≡ Some (pair_in (seen arena.now).held result) }
    ensures owned { OwnsPair (seen arena.now) result }
{
    match arena.dict_at(dict, at) {
        Ok(pair) => pair,
        Err(_) => unreachable!(),
    }
}

#[cycle(values)]
fn dict_member(
    arena: &Arena,
    place: Place,
    levels: u32,
    pair: (Value, Value),
    steps: &mut u64,
) -> Result<(String, Json), Stop>
    requires { OwnsPair (seen arena.now) pair }
    ensures { Spends member_seen result (seen arena.now) steps.old steps.new (value_member place levels (pair_in (seen arena.now).held pair)) }
{
    let (key, value) = pair;
    let key = paid_key(arena, place, text_in(arena, key), steps)?;
    let json = value_json(arena, place, levels, value, steps)?;
    Ok((key, json))
}

/// The text that a value is, if it is one.
fn text_in(arena: &Arena, key: Value) -> Option<&Text>
    requires { Owns (seen arena.now) key }
    ensures { (p : PlaceOf) → key_text p (option_map (λ t. t.now) result) ≡ key_data p (value_of (seen arena.now) key) }
{
    match key {
        Value::Text(text) => Some(arena.text(text)),
        _ => None,
    }
}

// ---- structs

/// The fields of a struct.
fn fields_of(arena: &Arena, of: Ref) -> &NamedValues
    requires { Owns (seen arena.now) (value.Struct of) }
    ensures fields { value_of (seen arena.now) (value.Struct of) ≡ struct_value (fields_in (seen arena.now).held result.now) }
    ensures owned { OwnsFields (seen arena.now) result.now }
{
    match arena.shape(of) {
        Shape::Struct(fields) => fields,
        _ => unreachable!(),
    }
}

#[cycle(values)]
fn struct_json(
    arena: &Arena,
    place: Place,
    levels: u32,
    fields: &NamedValues,
    steps: &mut u64,
) -> Result<Json, Stop>
    requires { OwnsFields (seen arena.now) fields.now }
    ensures { Spends view result (seen arena.now) steps.old steps.new (object_of (value_member place) levels place (field_pairs (seen arena.now).held fields.now)) }
{
    if levels == 0 {
        return Err(refusal(arena, FaultKind::TooDeep, place));
    }
    let entries = struct_members(arena, place, levels - 1, fields.as_slice(), steps)?;
    Ok(object_of(arena.alloc(), entries)?)
}

#[cycle(values)]
fn struct_members(
    arena: &Arena,
    place: Place,
    levels: u32,
    fields: &[NamedValue],
    steps: &mut u64,
) -> Result<Entries, Stop>
    requires { OwnsFields (seen arena.now) fields.now }
    ensures { Spends entries_seen result (seen arena.now) steps.old steps.new (each_member (value_member place levels) (field_pairs (seen arena.now).held fields.now)) }
{
    let mut entries = Vec::new(arena.alloc());
    for field in fields {
        let entry = struct_member(arena, place, levels, field, steps)?;
        push_back(&mut entries, entry)?;
    }
    Ok(entries)
}

#[cycle(values)]
fn struct_member(
    arena: &Arena,
    place: Place,
    levels: u32,
    field: &NamedValue,
    steps: &mut u64,
) -> Result<(String, Json), Stop>
    requires { OwnsField (seen arena.now) field.now }
    ensures { Spends member_seen result (seen arena.now) steps.old steps.new (value_member place levels (field_pair (seen arena.now).held field.now)) }
{
    let key = paid_key(arena, place, Some(&field.name), steps)?;
    let json = value_json(arena, place, levels, field.value, steps)?;
    Ok((key, json))
}
