// Types that are made.
ghost use Rattle.std.specs.Prelude.{◌≡◌, IfOk};
ghost use Rattle.std.specs.Option.{option_map};
ghost use Rattle.ytt_base.specs.View.{tree_of};
ghost use Rattle.node_build.specs.Parts.{Tells};
ghost use Rattle.schema_check.specs.View.{kind_of, schema_of, types_of};
ghost use Rattle.schema_spec.specs.Reading.{conforms, list_schema, map_schema, noted_type, with_default, with_nullable};
ghost use Rattle.schema_spec.specs.Schemas.{simple};
ghost use Rattle.schema_read.specs.View.{said_of};

use crate::notes::{Said, schema_form};
use object_arena::Arena;
use schema_check::{Schema, TypeKind, TypePairs, fill, first_offence};
use sqlite_items::{Boxed, Items};
use std::alloc::Global;
use ytt_base::fault::{Place, Stop};
use ytt_base::text::Memory;
use ytt_base::tree::Tree;

/// A type without notes.
pub(crate) fn simple(kind: TypeKind, default: Tree) -> Schema
    ensures { schema_of result ≡ simple (kind_of kind) (tree_of default) }
{
    Schema {
        kind,
        nullable: false,
        default,
    }
}

/// The type of a list, whose default is empty.
pub(crate) fn list_schema(alloc: Global, item: Schema) -> Result<Schema, Memory>
    ensures { IfOk result (λ s. schema_of s ≡ list_schema (schema_of item)) }
{
    let item = Boxed::new(alloc, item)?;
    Ok(simple(TypeKind::List(item), Tree::List(Items::new(alloc))))
}

/// The type of a map, whose default has those of all its keys.
pub(crate) fn map_schema(alloc: Global, types: TypePairs) -> Result<Schema, Memory>
    ensures { IfOk result (λ s. schema_of s ≡ map_schema (types_of types)) }
{
    let mut schema = simple(TypeKind::Map(types), Tree::Null);
    schema.default = fill(alloc, &schema, &Tree::Map(Items::new(alloc)))?;
    Ok(schema)
}

/// The type where null may stand too, and is the default.
fn with_nullable(nullable: bool, schema: Schema) -> Schema
    ensures { schema_of result ≡ with_nullable nullable (schema_of schema) }
{
    if nullable {
        Schema {
            kind: schema.kind,
            nullable: true,
            default: Tree::Null,
        }
    } else {
        schema
    }
}

fn conforms(schema: &Schema, tree: &Tree) -> bool
    ensures { result ≡ conforms (schema_of schema.now) (tree_of tree.now) }
{
    first_offence(schema, tree).is_none()
}

/// The type with another default, filled, if there is one: one that isn't of the type is `SchemaForm`.
fn with_default(
    arena: &Arena,
    place: Place,
    default: Option<Tree>,
    schema: Schema,
) -> Result<Schema, Stop>
    ensures { Tells schema_of result (with_default place (option_map tree_of default) (schema_of schema)) }
{
    match default {
        None => Ok(schema),
        Some(tree) => {
            if !conforms(&schema, &tree) {
                return Err(schema_form(arena, place));
            }
            let default = fill(arena.alloc(), &schema, &tree)?;
            Ok(Schema {
                kind: schema.kind,
                nullable: schema.nullable,
                default,
            })
        }
    }
}

/// What the notes of an item at a place make of the type of its value.
pub(crate) fn noted_type(
    arena: &Arena,
    place: Place,
    said: Said,
    schema: Schema,
) -> Result<Schema, Stop>
    ensures { Tells schema_of result (noted_type place (said_of said) (schema_of schema)) }
{
    with_default(
        arena,
        place,
        said.default,
        with_nullable(said.nullable, schema),
    )
}
