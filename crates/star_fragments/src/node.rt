// What stands in fragments: a tree, or items that were built, seen alike.
ghost use Rattle.std.specs.Prelude.{◌≡◌};
ghost use Rattle.star_steps.specs.Names.{List, key_of, pairs_of, tree_of, trees_of, body_in, built_in, scalar_key};
ghost use Rattle.value_spec.specs.Values as plain;
ghost use Rattle.star_fragments.specs.Nodes.{FirstEntry, FirstPart, entries_in, key_in, node_in, parts_in, scalar_in, spread, spread_body, spread_children, spread_pairs, spread_trees};

use star_values::{BuiltItem, BuiltValue};
use ytt_base::text::Text;
use ytt_base::tree::{Key, Tree};

/// A scalar, or a key.
#[derive(Clone, Copy)]
pub(crate) enum Leaf<'a> {
    Null,
    Bool(bool),
    Int(i128),
    Str(&'a Text),
}

/// What stands in a list or a map.
#[derive(Clone, Copy)]
pub(crate) enum Parts<'a> {
    Trees(&'a [Tree]),
    Pairs(&'a [(Key, Tree)]),
    Items(&'a [BuiltItem]),
}

/// A scalar, a list or a map, one level of it.
#[derive(Clone, Copy)]
pub(crate) enum Node<'a> {
    Leaf(Leaf<'a>),
    List(Parts<'a>),
    Map(Parts<'a>),
}

/// The first of parts, with its key if it has one, and the rest.
#[derive(Clone, Copy)]
pub(crate) struct Part<'a> {
    pub key: Option<Leaf<'a>>,
    pub node: Node<'a>,
    pub rest: Parts<'a>,
}

/// The pairs of a map, which are its parts that have keys, or the elements of a list, as pairs with the key null.
#[derive(Clone, Copy)]
pub(crate) struct Entries<'a> {
    pub keyed: bool,
    pub parts: Parts<'a>,
}

/// The first of pairs, and the rest.
#[derive(Clone, Copy)]
pub(crate) struct Entry<'a> {
    pub key: Leaf<'a>,
    pub node: Node<'a>,
    pub rest: Entries<'a>,
}

pub fn leaf_of(key: &Key) -> Leaf<'_>
    ensures { scalar_in result ≡ key_of key.now }
{
    match key {
        Key::Null => Leaf::Null,
        Key::Bool(b) => Leaf::Bool(*b),
        Key::Int(n) => Leaf::Int(*n),
        Key::Str(text) => Leaf::Str(text),
    }
}

fn key_of(key: &Option<Key>) -> Option<Leaf<'_>>
    ensures { key_in result ≡ scalar_key key.now }
{
    match key {
        None => None,
        Some(key) => Some(leaf_of(key)),
    }
}

#[tactic(auto, using(ytt_base::proofs::Views::views))]
fn node_of_tree(tree: &Tree) -> Node<'_>
    ensures { (held : List plain.Value) → node_in held result ≡ spread (tree_of tree.now) }
{
    match tree {
        Tree::Null => Node::Leaf(Leaf::Null),
        Tree::Bool(b) => Node::Leaf(Leaf::Bool(*b)),
        Tree::Int(n) => Node::Leaf(Leaf::Int(*n)),
        Tree::Str(text) => Node::Leaf(Leaf::Str(text)),
        Tree::List(trees) => Node::List(Parts::Trees(trees.as_slice())),
        Tree::Map(pairs) => Node::Map(Parts::Pairs(pairs.as_slice())),
    }
}

pub fn node_of_value(value: &BuiltValue) -> Node<'_>
    ensures { (held : List plain.Value) → node_in held result ≡ spread_body (body_in held value.now) }
{
    match value {
        BuiltValue::One(tree) => node_of_tree(tree),
        BuiltValue::Map(items) => Node::Map(Parts::Items(items.as_slice())),
        BuiltValue::List(items) => Node::List(Parts::Items(items.as_slice())),
    }
}

fn first_tree(trees: &[Tree]) -> Option<Part<'_>>
    ensures { (held : List plain.Value) → FirstPart held (spread_trees (trees_of trees.now)) result }
{
    match trees {
        [] => None,
        [tree, rest @ ..] => Some(Part {
            key: None,
            node: node_of_tree(tree),
            rest: Parts::Trees(rest),
        }),
    }
}

fn first_pair(pairs: &[(Key, Tree)]) -> Option<Part<'_>>
    ensures { (held : List plain.Value) → FirstPart held (spread_pairs (pairs_of pairs.now)) result }
{
    match pairs {
        [] => None,
        [pair, rest @ ..] => Some(Part {
            key: Some(leaf_of(&pair.0)),
            node: node_of_tree(&pair.1),
            rest: Parts::Pairs(rest),
        }),
    }
}

fn first_item(items: &[BuiltItem]) -> Option<Part<'_>>
    ensures { (held : List plain.Value) → FirstPart held (spread_children (built_in held items.now)) result }
{
    match items {
        [] => None,
        [item, rest @ ..] => Some(Part {
            key: key_of(&item.key),
            node: node_of_value(&item.value),
            rest: Parts::Items(rest),
        }),
    }
}

/// The first of parts, and the rest.
pub fn first_part(parts: Parts<'_>) -> Option<Part<'_>>
    ensures { (held : List plain.Value) → FirstPart held (parts_in held parts.entry) result }
{
    match parts {
        Parts::Trees(trees) => first_tree(trees),
        Parts::Pairs(pairs) => first_pair(pairs),
        Parts::Items(items) => first_item(items),
    }
}

/// The first of pairs, and the rest.
pub fn first_entry(entries: Entries<'_>) -> Option<Entry<'_>>
    ensures { (held : List plain.Value) → FirstEntry held (entries_in held entries.entry) result }
{
    let keyed = entries.keyed;
    let mut left = entries.parts;
    while let Some(part) = first_part(left) {
        let node = part.node;
        let rest = Entries {
            keyed,
            parts: part.rest,
        };
        if !keyed {
            let key = Leaf::Null;
            return Some(Entry { key, node, rest });
        }
        if let Some(key) = part.key {
            return Some(Entry { key, node, rest });
        }
        left = part.rest;
    }
    None
}
