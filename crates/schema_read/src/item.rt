// The types of items, and of a document.
ghost use Rattle.std.specs.Prelude.{◌≡◌, IfOk, List};
ghost use Rattle.ytt_base.specs.View.{tree_of};
ghost use Rattle.value_spec.specs.Built.{body_tree};
ghost use Rattle.value_spec.specs.Values as plain;
ghost use Rattle.star_fragments.specs.Fresh.{OwnsBody};
ghost use Rattle.star_steps.specs.Meets.{as_is};
ghost use Rattle.star_values.specs.Objects.{seen};
ghost use Rattle.star_values.specs.Owns.{OwnsBuilt, OwnsItem};
ghost use Rattle.star_values.specs.View.{body_in, built_in, child_in, scalar_key};
ghost use Rattle.node_build.specs.Parts.{Spends, Tells};
ghost use Rattle.schema_check.specs.View.{schema_of, types_of};
ghost use Rattle.schema_spec.specs.Clauses.{ReadsSchema};
ghost use Rattle.schema_spec.specs.Reading.{body_type, item_schema, item_type, member_types, text_key};

use crate::example::{text_key, value_type};
use crate::notes::{read_notes, schema_form};
use crate::types::{list_schema, map_schema, noted_type, simple};
use node_build::documents_of;
use object_arena::{Arena, BuiltItem, BuiltValue, Work};
use schema_check::{Schema, TypeKind, TypePairs};
use std::alloc::Global;
use std::slice;
use ytt_base::fault::{Place, Stop};
use ytt_base::text::{Memory, Text};
use ytt_base::tree::Tree;

/// The tree of what an item holds, without notes.
fn held_tree(alloc: Global, item: &BuiltItem) -> Result<Tree, Memory>
    ensures { (held : List plain.Value) → IfOk result (λ t. tree_of t ≡ body_tree (body_in held item.now.value)) }
{
    let mut trees = documents_of(alloc, slice::from_ref(item))?;
    match trees.pop() {
        None => Ok(Tree::Null),
        Some(tree) => Ok(tree),
    }
}

/// The key of a pair as that of a map's type.
fn item_key(arena: &Arena, item: &BuiltItem) -> Result<Text, Stop>
    ensures { Tells as_is result (text_key item.now.place (scalar_key item.now.key)) }
{
    match &item.key {
        None => Err(schema_form(arena, item.place)),
        Some(key) => text_key(arena, item.place, key),
    }
}

/// The type of an item: what its notes say, the type of its value, and what the notes make of it.
#[cycle(items)]
fn item_schema(
    arena: &Arena,
    in_list: bool,
    item: &BuiltItem,
    steps: &mut u64,
) -> Result<Schema, Stop>
    requires { OwnsItem (seen arena.now) item.now }
    ensures { Spends schema_of result (seen arena.now) steps.old steps.new (item_schema in_list (child_in (seen arena.now).held item.now)) }
{
    let said = read_notes(arena, item.place, in_list, item.notes.as_slice(), steps)?;
    let schema = if said.is_any {
        simple(TypeKind::Any, held_tree(arena.alloc(), item)?)
    } else {
        body_type(arena, item.place, said.nullable, &item.value, steps)?
    };
    noted_type(arena, item.place, said, schema)
}

/// The type of what an item at a place holds.
#[cycle(items)]
fn body_type(
    arena: &Arena,
    place: Place,
    nullable: bool,
    value: &BuiltValue,
    steps: &mut u64,
) -> Result<Schema, Stop>
    requires { OwnsBody (seen arena.now) value.now }
    ensures { Spends schema_of result (seen arena.now) steps.old steps.new (body_type place nullable (body_in (seen arena.now).held value.now)) }
{
    match value {
        BuiltValue::One(tree) => value_type(arena, place, nullable, tree),
        BuiltValue::Map(items) => {
            let types = member_types(arena, items.as_slice(), steps)?;
            Ok(map_schema(arena.alloc(), types)?)
        }
        BuiltValue::List(items) => {
            let item = item_type(arena, place, items.as_slice(), steps)?;
            Ok(list_schema(arena.alloc(), item)?)
        }
    }
}

/// The types of the keys of a map.
#[cycle(items)]
fn member_types(arena: &Arena, items: &[BuiltItem], steps: &mut u64) -> Result<TypePairs, Stop>
    requires { OwnsBuilt (seen arena.now) items.now }
    ensures { Spends types_of result (seen arena.now) steps.old steps.new (member_types (built_in (seen arena.now).held items.now)) }
{
    let mut types = TypePairs::new(arena.alloc());
    for item in items {
        let name = item_key(arena, item)?;
        let schema = item_schema(arena, false, item, steps)?;
        types.push(arena.alloc(), name, schema)?;
    }
    Ok(types)
}

/// The type of the one item of a list, which stands at a place.
#[cycle(items)]
fn item_type(
    arena: &Arena,
    place: Place,
    items: &[BuiltItem],
    steps: &mut u64,
) -> Result<Schema, Stop>
    requires { OwnsBuilt (seen arena.now) items.now }
    ensures { Spends schema_of result (seen arena.now) steps.old steps.new (item_type place (built_in (seen arena.now).held items.now)) }
{
    match items {
        [] => Err(schema_form(arena, place)),
        [item] => item_schema(arena, true, item, steps),
        [_, _, ..] => Err(schema_form(arena, place)),
    }
}

/// The type that a schema document gives from its evaluated example, for the steps of the arguments that its notes have: a bool, an
/// integer, a string, a list of items of one type, or a map of exactly these keys. The example is the default, and that of a list is empty.
///
/// `SchemaForm`, at the item's line: null without `schema/nullable` or `schema/type any=True`, a list of no or of several items, a key that
/// is no string, `schema/default` on a list's item, a default that has no tree or isn't of the type, and other arguments. An argument that
/// nests deeper than 100 is `TooDeep`, and one for which no steps are left is `Steps`, there too.
pub fn read_schema(arena: &Arena, work: &mut Work, document: &BuiltItem) -> Result<Schema, Stop>
    requires { OwnsItem (seen arena.now) document.now }
    ensures meaning { ReadsSchema schema_of result (seen arena.now).store work.old.steps work.new.steps (child_in (seen arena.now).held document.now) }
    ensures depth { work.new.depth ≡ work.old.depth }
{
    item_schema(arena, false, document, &mut work.steps)
}
