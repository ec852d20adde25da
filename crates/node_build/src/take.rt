// Values that are taken over as trees.
ghost use Rattle.std.specs.Prelude.{◌≡◌, ◌<◌, length, slice_get, Some};
ghost use Rattle.ytt_base.specs.View.{key_of, pairs_of, tree_of, trees_of};
ghost use Rattle.ytt_base.specs.Trees.{max_depth, string};
ghost use Rattle.star_values.specs.Objects.{pair_in, seen};
ghost use Rattle.star_values.specs.Owns.{Owns, OwnsAll, OwnsField, OwnsFields, OwnsPair};
ghost use Rattle.star_values.specs.View.{fields_in, value_of, values_of};
ghost use Rattle.star_values.specs.declared.value.Value.TheVariants as value;
ghost use Rattle.template_meaning.specs.Take.{scalar_of_value, tree_of_value};
ghost use Rattle.value_spec.specs.Store.{pairs_at};
ghost use Rattle.value_spec.specs.Values.{struct_value, text_value};
ghost use Rattle.node_build.specs.Parts.{Spends};
ghost use Rattle.node_build.specs.Taking.{field_pair, field_pairs, key_paid_for, list_taken, map_taken, member_taken, members_taken, pair_seen, pair_taken, pairs_taken, text_taken};

use crate::documents::{pairs_of_items, trees_of_items};
use crate::list::push;
use object_arena::{Arena, ItemKind, NamedValue, NamedValues, Ref, Shape, Value, Work};
use sqlite_items::Items;
use star_compare::pair_count;
use star_fragments::pay_items;
use star_steps::{pay, refusal, tuple_members};
use ytt_base::fault::{FaultKind, Place, Stop};
use ytt_base::text::Text;
use ytt_base::tree::{Key, Pairs, Tree, Trees};

/// The greatest depth of a tree.
pub(crate) const MAX_DEPTH: u32 = 100;

/// The steps of each member, before those of what it is.
const MEMBER_STEPS: u128 = 1;

/// The pair of a dict at a place, of which there is one.
fn pair_at(arena: &Arena, dict: Ref, at: u64) -> (Value, Value)
    requires dict { Owns (seen arena.now) (value.Dict dict) }
    requires at { at < length (pairs_at dict.at (seen arena.now).store) }
    ensures pair { slice_get (pairs_at dict.at (seen arena.now).store) at ≡ Some (pair_in (seen arena.now).held result) }
    ensures owned { OwnsPair (seen arena.now) result }
{
    match arena.dict_at(dict, at) {
        Ok(pair) => pair,
        Err(_) => unreachable!(),
    }
}

/// The tree of a value, taken at a place: a text takes a sixteenth of its bytes as steps, a collection 1 for each member or pair
/// with those of the member, or of the key and the value. What nests deeper than 100 is `TooDeep`, and what has no tree `NotYaml`.
pub fn to_tree(arena: &Arena, work: &mut Work, value: Value, at: Place) -> Result<Tree, Stop>
    requires { Owns (seen arena.now) value }
    ensures meaning { Spends tree_of result (seen arena.now) work.old.steps work.new.steps (tree_of_value max_depth at (value_of (seen arena.now) value)) }
    ensures depth { work.new.depth ≡ work.old.depth }
{
    taken_tree(arena, at, MAX_DEPTH, value, &mut work.steps)
}

/// The tree of a value, where collections may nest so many levels: deeper ones are `TooDeep`.
#[cycle(taken)]
pub(crate) fn taken_tree(
    arena: &Arena,
    place: Place,
    levels: u32,
    value: Value,
    steps: &mut u64,
) -> Result<Tree, Stop>
    requires { Owns (seen arena.now) value }
    ensures { Spends tree_of result (seen arena.now) steps.old steps.new (tree_of_value levels place (value_of (seen arena.now) value)) }
{
    match value {
        Value::None => Ok(Tree::Null),
        Value::Bool(b) => Ok(Tree::Bool(b)),
        Value::Int(n) => Ok(Tree::Int(n)),
        Value::Text(text) => Ok(Tree::Str(paid_text(arena, place, arena.text(text), steps)?)),
        Value::List(list) => list_tree(arena, place, levels, arena.list(list), steps),
        Value::Tuple(tuple) => {
            list_tree(arena, place, levels, tuple_members(arena, tuple), steps)
        }
        Value::Dict(dict) => dict_tree(arena, place, levels, dict, steps),
        Value::Struct(of) => struct_tree(arena, place, levels, fields_of(arena, of), steps),
        Value::Fragment(fragment) => fragment_tree(arena, place, levels, fragment, steps),
        _ => Err(refusal(arena, FaultKind::NotYaml, place)),
    }
}

/// A copy of a text, after a sixteenth of its bytes as steps.
fn paid_text(arena: &Arena, place: Place, text: &Text, steps: &mut u64) -> Result<Text, Stop>
    ensures { Spends (λ t. string t) result (seen arena.now) steps.old steps.new (text_taken place text.now) }
{
    pay(arena, place, text.as_str().len() as u128 / 16, steps)?;
    Ok(text.copy()?)
}

/// The fields of a struct.
fn fields_of(arena: &Arena, of: Ref) -> &NamedValues
    requires { Owns (seen arena.now) (value.Struct of) }
    ensures fields { value_of (seen arena.now) (value.Struct of) ≡ struct_value (fields_in (seen arena.now).held result.now) }
    ensures owned { OwnsFields (seen arena.now) result.now }
{
    match arena.shape(of) {
        Shape::Struct(fields) => fields,
        _ => unreachable!(),
    }
}

#[cycle(taken)]
fn list_tree(
    arena: &Arena,
    place: Place,
    levels: u32,
    members: &[Value],
    steps: &mut u64,
) -> Result<Tree, Stop>
    requires { OwnsAll (seen arena.now) members.now }
    ensures { Spends tree_of result (seen arena.now) steps.old steps.new (list_taken levels place (values_of (seen arena.now) members.now)) }
{
    if levels == 0 {
        return Err(refusal(arena, FaultKind::TooDeep, place));
    }
    Ok(Tree::List(member_trees(arena, place, levels - 1, members, steps)?))
}

#[cycle(taken)]
fn member_trees(
    arena: &Arena,
    place: Place,
    levels: u32,
    members: &[Value],
    steps: &mut u64,
) -> Result<Trees, Stop>
    requires { OwnsAll (seen arena.now) members.now }
    ensures { Spends trees_of result (seen arena.now) steps.old steps.new (members_taken levels place (values_of (seen arena.now) members.now)) }
{
    let mut trees = Items::new(arena.alloc());
    for member in members {
        let tree = member_tree(arena, place, levels, *member, steps)?;
        push(&mut trees, tree)?;
    }
    Ok(trees)
}

/// The same of a member, which takes a step.
#[cycle(taken)]
fn member_tree(
    arena: &Arena,
    place: Place,
    levels: u32,
    value: Value,
    steps: &mut u64,
) -> Result<Tree, Stop>
    requires { Owns (seen arena.now) value }
    ensures { Spends tree_of result (seen arena.now) steps.old steps.new (member_taken levels place (value_of (seen arena.now) value)) }
{
    pay(arena, place, MEMBER_STEPS, steps)?;
    taken_tree(arena, place, levels, value, steps)
}

#[cycle(taken)]
fn dict_tree(
    arena: &Arena,
    place: Place,
    levels: u32,
    dict: Ref,
    steps: &mut u64,
) -> Result<Tree, Stop>
    requires { Owns (seen arena.now) (value.Dict dict) }
    ensures { Spends tree_of result (seen arena.now) steps.old steps.new (map_taken levels place (pairs_at dict.at (seen arena.now).store)) }
{
    if levels == 0 {
        return Err(refusal(arena, FaultKind::TooDeep, place));
    }
    Ok(Tree::Map(dict_pairs(arena, place, levels - 1, dict, steps)?))
}

#[cycle(taken)]
fn dict_pairs(
    arena: &Arena,
    place: Place,
    levels: u32,
    dict: Ref,
    steps: &mut u64,
) -> Result<Pairs, Stop>
    requires { Owns (seen arena.now) (value.Dict dict) }
    ensures { Spends pairs_of result (seen arena.now) steps.old steps.new (pairs_taken levels place (pairs_at dict.at (seen arena.now).store)) }
{
    let mut pairs = Items::new(arena.alloc());
    for i in 0..pair_count(arena, dict) {
        let pair = dict_pair(arena, place, levels, pair_at(arena, dict, i), steps)?;
        push(&mut pairs, pair)?;
    }
    Ok(pairs)
}

/// The key and the tree of a pair. A key that is a tuple is `NotYaml`.
#[cycle(taken)]
fn dict_pair(
    arena: &Arena,
    place: Place,
    levels: u32,
    pair: (Value, Value),
    steps: &mut u64,
) -> Result<(Key, Tree), Stop>
    requires { OwnsPair (seen arena.now) pair }
    ensures { Spends pair_seen result (seen arena.now) steps.old steps.new (pair_taken levels place (pair_in (seen arena.now).held pair)) }
{
    let (key, value) = pair;
    let key = paid_key(arena, place, key, steps)?;
    let tree = taken_tree(arena, place, levels, value, steps)?;
    Ok((key, tree))
}

/// A value as a key, after a step.
fn paid_key(arena: &Arena, place: Place, key: Value, steps: &mut u64) -> Result<Key, Stop>
    requires { Owns (seen arena.now) key }
    ensures { Spends key_of result (seen arena.now) steps.old steps.new (key_paid_for place (value_of (seen arena.now) key)) }
{
    pay(arena, place, MEMBER_STEPS, steps)?;
    key_of_value(arena, place, key, steps)
}

/// A value as a key.
fn key_of_value(arena: &Arena, place: Place, key: Value, steps: &mut u64) -> Result<Key, Stop>
    requires { Owns (seen arena.now) key }
    ensures { Spends key_of result (seen arena.now) steps.old steps.new (scalar_of_value place (value_of (seen arena.now) key)) }
{
    match key {
        Value::None => Ok(Key::Null),
        Value::Bool(b) => Ok(Key::Bool(b)),
        Value::Int(n) => Ok(Key::Int(n)),
        Value::Text(text) => Ok(Key::Str(paid_text(arena, place, arena.text(text), steps)?)),
        _ => Err(refusal(arena, FaultKind::NotYaml, place)),
    }
}

#[cycle(taken)]
fn struct_tree(
    arena: &Arena,
    place: Place,
    levels: u32,
    fields: &NamedValues,
    steps: &mut u64,
) -> Result<Tree, Stop>
    requires { OwnsFields (seen arena.now) fields.now }
    ensures { Spends tree_of result (seen arena.now) steps.old steps.new (map_taken levels place (field_pairs (seen arena.now).held fields.now)) }
{
    if levels == 0 {
        return Err(refusal(arena, FaultKind::TooDeep, place));
    }
    Ok(Tree::Map(struct_pairs(arena, place, levels - 1, fields.as_slice(), steps)?))
}

#[cycle(taken)]
fn struct_pairs(
    arena: &Arena,
    place: Place,
    levels: u32,
    fields: &[NamedValue],
    steps: &mut u64,
) -> Result<Pairs, Stop>
    requires { OwnsFields (seen arena.now) fields.now }
    ensures { Spends pairs_of result (seen arena.now) steps.old steps.new (pairs_taken levels place (field_pairs (seen arena.now).held fields.now)) }
{
    let mut pairs = Items::new(arena.alloc());
    for field in fields {
        let pair = struct_pair(arena, place, levels, field, steps)?;
        push(&mut pairs, pair)?;
    }
    Ok(pairs)
}

/// The name and the tree of a field.
#[cycle(taken)]
fn struct_pair(
    arena: &Arena,
    place: Place,
    levels: u32,
    field: &NamedValue,
    steps: &mut u64,
) -> Result<(Key, Tree), Stop>
    requires { OwnsField (seen arena.now) field.now }
    ensures { Spends pair_seen result (seen arena.now) steps.old steps.new (pair_taken levels place (field_pair (seen arena.now).held field.now)) }
{
    let name = paid_name(arena, place, &field.name, steps)?;
    let tree = taken_tree(arena, place, levels, field.value, steps)?;
    Ok((Key::Str(name), tree))
}

/// A name as a key, after a step.
fn paid_name(arena: &Arena, place: Place, name: &Text, steps: &mut u64) -> Result<Text, Stop>
    ensures { Spends (λ t. string t) result (seen arena.now) steps.old steps.new (key_paid_for place (text_value name.now)) }
{
    pay(arena, place, MEMBER_STEPS, steps)?;
    paid_text(arena, place, name, steps)
}

/// The tree of a fragment, which takes its size as steps.
fn fragment_tree(
    arena: &Arena,
    place: Place,
    levels: u32,
    fragment: Ref,
    steps: &mut u64,
) -> Result<Tree, Stop>
    requires { Owns (seen arena.now) (value.Fragment fragment) }
    ensures { Spends tree_of result (seen arena.now) steps.old steps.new (tree_of_value levels place (value_of (seen arena.now) (value.Fragment fragment))) }
{
    match arena.shape(fragment) {
        Shape::Fragment(ItemKind::Pair, items) => {
            pay_items(arena, place, levels, items.as_slice(), steps)?;
            Ok(Tree::Map(pairs_of_items(arena.alloc(), items.as_slice())?))
        }
        Shape::Fragment(ItemKind::Element, items) => {
            pay_items(arena, place, levels, items.as_slice(), steps)?;
            Ok(Tree::List(trees_of_items(arena.alloc(), items.as_slice())?))
        }
        Shape::Fragment(ItemKind::Document, _) => { Err(refusal(arena, FaultKind::NotYaml, place)) }
        _ => unreachable!(),
    }
}
