// The types of examples that were taken over whole. Each refusal stands at the item's place.
ghost use Rattle.std.specs.Prelude.{◌≡◌, Some};
ghost use Rattle.ytt_base.specs.Trees.{is_null};
ghost use Rattle.ytt_base.specs.View.{key_of, pairs_of, tree_of, trees_of};
ghost use Rattle.node_build.specs.Parts.{Tells};
ghost use Rattle.schema_check.specs.View.{schema_of, types_of};
ghost use Rattle.schema_spec.specs.Reading.{example_item, example_pairs, example_type, text_key, value_type};
ghost use Rattle.star_steps.specs.Meets.{as_is};

use crate::notes::schema_form;
use crate::types::{list_schema, map_schema, simple};
use object_arena::Arena;
use schema_check::{Schema, TypeKind, TypePairs};
use ytt_base::fault::{Place, Stop};
use ytt_base::text::Text;
use ytt_base::tree::{Key, Pairs, Tree, Trees};

/// The key of a map's type: one that is no string is `SchemaForm`.
pub(crate) fn text_key(arena: &Arena, place: Place, key: &Key) -> Result<Text, Stop>
    ensures { Tells as_is result (text_key place (Some (key_of key.now))) }
{
    match key {
        Key::Str(name) => Ok(name.copy()?),
        Key::Null => Err(schema_form(arena, place)),
        Key::Bool(_) => Err(schema_form(arena, place)),
        Key::Int(_) => Err(schema_form(arena, place)),
    }
}

/// The type of an example: null has none.
#[cycle(example)]
fn example_type(arena: &Arena, place: Place, tree: &Tree) -> Result<Schema, Stop>
    ensures { Tells schema_of result (example_type place (tree_of tree.now)) }
{
    match tree {
        Tree::Null => Err(schema_form(arena, place)),
        Tree::Bool(b) => Ok(simple(TypeKind::Bool, Tree::Bool(*b))),
        Tree::Int(n) => Ok(simple(TypeKind::Int, Tree::Int(*n))),
        Tree::Str(text) => Ok(simple(TypeKind::Str, Tree::Str(text.copy()?))),
        Tree::List(trees) => {
            let item = example_item(arena, place, trees)?;
            Ok(list_schema(arena.alloc(), item)?)
        }
        Tree::Map(pairs) => {
            let types = example_pairs(arena, place, pairs)?;
            Ok(map_schema(arena.alloc(), types)?)
        }
    }
}

/// The type of the one item of a list.
#[cycle(example)]
fn example_item(arena: &Arena, place: Place, trees: &Trees) -> Result<Schema, Stop>
    ensures { Tells schema_of result (example_item place (trees_of trees.now)) }
{
    match trees.as_slice() {
        [] => Err(schema_form(arena, place)),
        [tree] => example_type(arena, place, tree),
        [_, _, ..] => Err(schema_form(arena, place)),
    }
}

/// The types of the keys of a map.
#[cycle(example)]
fn example_pairs(arena: &Arena, place: Place, pairs: &Pairs) -> Result<TypePairs, Stop>
    ensures { Tells types_of result (example_pairs place (pairs_of pairs.now)) }
{
    let mut types = TypePairs::new(arena.alloc());
    for (key, tree) in pairs.as_slice() {
        let name = text_key(arena, place, key)?;
        let schema = example_type(arena, place, tree)?;
        types.push(arena.alloc(), name, schema)?;
    }
    Ok(types)
}

fn is_null(tree: &Tree) -> bool
    ensures { result ≡ is_null (tree_of tree.now) }
{
    match tree {
        Tree::Null => true,
        Tree::Bool(_) => false,
        Tree::Int(_) => false,
        Tree::Str(_) => false,
        Tree::List(_) => false,
        Tree::Map(_) => false,
    }
}

/// The type of an item's value that was taken over whole: null has any type where null may stand.
pub(crate) fn value_type(
    arena: &Arena,
    place: Place,
    nullable: bool,
    tree: &Tree,
) -> Result<Schema, Stop>
    ensures { Tells schema_of result (value_type nullable place (tree_of tree.now)) }
{
    if nullable && is_null(tree) {
        return Ok(simple(TypeKind::Any, Tree::Null));
    }
    example_type(arena, place, tree)
}
