// Types, written as YAML: `any`, `bool`, `int` or `string`, `{key: type}`, `[type]`, `[nullable, type]` or `[default, type, tree]`.

use schema_check::{Schema, TypeKind, TypePairs, fill};
use sqlite_items::{Boxed, Items};
use std::alloc::Global;
use std::test::Fail;
use ytt_base::text::{Memory, Text};
use ytt_base::tree::{Key, Pairs, Tree};

/// A type without notes.
fn plain(kind: TypeKind, default: Tree) -> Schema {
    Schema {
        kind,
        nullable: false,
        default,
    }
}

/// A type by its name.
fn named(alloc: Global, name: &str) -> Result<Schema, Fail> {
    match name {
        "any" => Ok(plain(TypeKind::Any, Tree::Null)),
        "bool" => Ok(plain(TypeKind::Bool, Tree::Bool(false))),
        "int" => Ok(plain(TypeKind::Int, Tree::Int(0))),
        "string" => Ok(plain(TypeKind::Str, Tree::Str(Text::new(alloc)))),
        _ => Err(Fail::from("no type has this name")),
    }
}

/// The type of a list, whose default is empty.
pub fn list_of(alloc: Global, item: Schema) -> Result<Schema, Memory> {
    let item = Boxed::new(alloc, item)?;
    Ok(plain(TypeKind::List(item), Tree::List(Items::new(alloc))))
}

/// The type of a map, whose default has all its keys.
fn map_of(alloc: Global, types: TypePairs) -> Result<Schema, Memory> {
    let empty = Tree::Map(Items::new(alloc));
    let schema = plain(TypeKind::Map(types), Tree::Null);
    let default = fill(alloc, &schema, &empty)?;
    Ok(Schema {
        kind: schema.kind,
        nullable: false,
        default,
    })
}

fn or_null(schema: Schema) -> Schema {
    Schema {
        kind: schema.kind,
        nullable: true,
        default: Tree::Null,
    }
}

fn with_default(alloc: Global, schema: Schema, default: &Tree) -> Result<Schema, Memory> {
    let default = fill(alloc, &schema, default)?;
    Ok(Schema {
        kind: schema.kind,
        nullable: schema.nullable,
        default,
    })
}

/// The types of keys.
#[cycle(types)]
fn types_of(alloc: Global, pairs: &Pairs) -> Result<TypePairs, Fail> {
    let mut types = TypePairs::new(alloc);
    for (key, tree) in pairs.as_slice() {
        let schema = type_of(alloc, tree)?;
        let Key::Str(name) = key else {
            return Err(Fail::from("a key that is no text"));
        };
        types.push(alloc, name.copy()?, schema)?;
    }
    Ok(types)
}

/// A type in brackets.
#[cycle(types)]
fn bracketed(alloc: Global, parts: &[Tree]) -> Result<Schema, Fail> {
    match parts {
        [item] => Ok(list_of(alloc, type_of(alloc, item)?)?),
        [_, schema] => Ok(or_null(type_of(alloc, schema)?)),
        [_, schema, default] => Ok(with_default(alloc, type_of(alloc, schema)?, default)?),
        _ => Err(Fail::from("brackets that are no type")),
    }
}

/// The type that a tree writes.
#[cycle(types)]
pub fn type_of(alloc: Global, tree: &Tree) -> Result<Schema, Fail> {
    match tree {
        Tree::Str(name) => named(alloc, name.as_str()),
        Tree::List(parts) => bracketed(alloc, parts.as_slice()),
        Tree::Map(pairs) => Ok(map_of(alloc, types_of(alloc, pairs)?)?),
        Tree::Null | Tree::Bool(_) | Tree::Int(_) => Err(Fail::from("a scalar that is no type")),
    }
}
