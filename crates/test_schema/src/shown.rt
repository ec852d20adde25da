// Trees, paths and offences as texts.

use schema_check::{Offence, Schema, TypeKind, TypePairs, fill, first_offence, offence_path};
use std::alloc::Global;
use test_shown::Shown;
use ytt_base::text::Memory;
use ytt_base::tree::{Key, Pairs, Path, Step, Tree, Trees};

/// A key: `null`, `true`, `7` or `'text'`.
fn put_key(out: &mut Shown, key: &Key) {
    match key {
        Key::Null => out.put("null"),
        Key::Bool(is) => out.put(if *is { "true" } else { "false" }),
        Key::Int(n) => out.put_number(*n),
        Key::Str(text) => out.put_quoted(text.as_str()),
    }
}

/// A tree in one line: `[1 'a']`, `{'a'=1 'b'=null}`.
#[cycle(trees)]
pub fn put_tree(out: &mut Shown, tree: &Tree) {
    match tree {
        Tree::Null => out.put("null"),
        Tree::Bool(is) => out.put(if *is { "true" } else { "false" }),
        Tree::Int(n) => out.put_number(*n),
        Tree::Str(text) => out.put_quoted(text.as_str()),
        Tree::List(trees) => {
            out.put("[");
            put_trees(out, trees);
            out.put("]");
        }
        Tree::Map(pairs) => {
            out.put("{");
            put_pairs(out, pairs);
            out.put("}");
        }
    }
}

#[cycle(trees)]
fn put_trees(out: &mut Shown, trees: &Trees) {
    for (at, tree) in trees.as_slice().iter().enumerate() {
        out.put(if at > 0 { " " } else { "" });
        put_tree(out, tree);
    }
}

#[cycle(trees)]
fn put_pairs(out: &mut Shown, pairs: &Pairs) {
    for (at, (key, tree)) in pairs.as_slice().iter().enumerate() {
        out.put(if at > 0 { " " } else { "" });
        put_key(out, key);
        out.put("=");
        put_tree(out, tree);
    }
}

/// The kind of a type.
fn kind_name(schema: &Schema) -> &'static str {
    match &schema.kind {
        TypeKind::Any => "any",
        TypeKind::Bool => "bool",
        TypeKind::Int => "int",
        TypeKind::Str => "string",
        TypeKind::Map(_) => "map",
        TypeKind::List(_) => "list",
    }
}

/// A type with its default, so many levels deep: `int=1`, `string?=null`, `[int=1]=[]`, `{a:int=1}={'a'=1}`.
#[cycle(types)]
pub fn put_schema(out: &mut Shown, schema: &Schema, levels: u32) {
    match &schema.kind {
        TypeKind::Map(types) => put_types(out, types, levels),
        TypeKind::List(item) => put_item(out, item.get(), levels),
        _ => out.put(kind_name(schema)),
    }
    out.put(if schema.nullable { "?=" } else { "=" });
    put_tree(out, &schema.default);
}

#[cycle(types)]
fn put_item(out: &mut Shown, item: &Schema, levels: u32) {
    out.put("[");
    if levels > 0 {
        put_schema(out, item, levels - 1);
    }
    out.put("]");
}

#[cycle(types)]
fn put_types(out: &mut Shown, types: &TypePairs, levels: u32) {
    out.put("{");
    for at in 0..types.len() {
        if let Some((name, schema)) = types.get(at) {
            out.put(if at > 0 { " " } else { "" });
            out.put(name.as_str());
            out.put(":");
            if levels > 0 {
                put_schema(out, schema, levels - 1);
            }
        }
    }
    out.put("}");
}

/// A path: `/'a'/0`.
fn put_path(out: &mut Shown, path: &Path) {
    for step in path.as_slice() {
        out.put("/");
        match step {
            Step::Key(key) => put_key(out, key),
            Step::Index(index) => out.put_number(i128::from(*index)),
        }
    }
}

/// Where an offence stands, and `?` where the key there is unknown; the type and the tree that were found of it.
fn put_offence(out: &mut Shown, offence: &Offence, schema: &Schema, tree: &Tree) {
    put_path(out, &offence.path);
    out.put(if offence.unknown_key { "? " } else { " " });
    out.put(kind_name(schema));
    out.put(" ");
    put_tree(out, tree);
}

/// What is said of a tree against a type: its first offence, or the tree where it is filled.
pub fn said(alloc: Global, schema: &Schema, tree: &Tree) -> Result<String, Memory> {
    let mut out = Shown::new(alloc);
    match offence_path(alloc, schema, tree)? {
        None => put_tree(&mut out, &fill(alloc, schema, tree)?),
        Some(offence) => match first_offence(schema, tree) {
            None => out.put("an offence that isn't found"),
            Some((own, node)) => put_offence(&mut out, &offence, own, node),
        },
    }
    out.take()
}
