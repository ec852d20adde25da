// The trees of documents.
ghost use Rattle.std.specs.Prelude.{◌≡◌, [], ◌∷◌, ◌++◌, IfOk, OnOk, if◌then◌else◌};
ghost use Rattle.ytt_base.specs.Outcomes.{Gives};
ghost use Rattle.ytt_base.specs.Trees.{is_null};
ghost use Rattle.ytt_base.specs.View.{key_of as key_told, pairs_of, tree_of, trees_of};
ghost use Rattle.yaml_noted.specs.View.{content_of, documents_of, items_of, note_of};
ghost use Rattle.yaml_spec.specs.Noted.{bare_pairs, bare_tree, bare_trees, drop_null, key_of};
ghost use Rattle.yaml_spec.specs.Read.{plain_trees};
ghost use Rattle.yaml_trees.specs.Faults.{key_twice};

use crate::twice::twice_below;
use sqlite_items::Items;
use std::alloc::Global;
use yaml_noted::{Content, NotedDocs, NotedItem, NotedItems};
use yaml_styles::key_text;
use ytt_base::fault::{Fault, FaultKind, Stop};
use ytt_base::text::{Memory, Text};
use ytt_base::tree::{Key, Pairs, Tree, Trees};

fn push<T: Drop>(items: &mut Items<T>, item: T) -> Result<(), Memory>
    ensures { OnOk result (items.new ≡ items.old ++ item ∷ []) }
{
    items.push(item)?;
    Ok(())
}

#[cycle(trees)]
#[tactic(auto, using(yaml_noted::proofs::Views::views, ytt_base::proofs::Views::views))]
fn bare_tree(alloc: Global, content: &Content) -> Result<Tree, Memory>
    ensures { IfOk result (λ t. tree_of t ≡ bare_tree (content_of content.now)) }
{
    match content {
        Content::Scalar(tree) => tree.copy(alloc),
        Content::Map(items) => Ok(Tree::Map(bare_pairs(alloc, items)?)),
        Content::List(items) => Ok(Tree::List(bare_trees(alloc, items)?)),
    }
}

#[cycle(trees)]
fn bare_trees(alloc: Global, items: &NotedItems) -> Result<Trees, Memory>
    ensures { IfOk result (λ ts. trees_of ts ≡ bare_trees (items_of items.now)) }
{
    let mut trees = Items::new(alloc);
    for item in items.as_slice() {
        let tree = bare_tree(alloc, &item.content)?;
        push(&mut trees, tree)?;
    }
    Ok(trees)
}

/// A key of its own of an item, which is null where it has none.
fn own_key(item: &NotedItem) -> Result<Key, Memory>
    ensures { IfOk result (λ k. key_told k ≡ key_of (note_of item.now)) }
{
    match &item.key {
        Some(key) => key.copy(),
        None => Ok(Key::Null),
    }
}

/// The pairs of the items of a map. No key stands twice where `twice_below` found none.
#[cycle(trees)]
fn bare_pairs(alloc: Global, items: &NotedItems) -> Result<Pairs, Memory>
    ensures { IfOk result (λ ps. pairs_of ps ≡ bare_pairs (items_of items.now)) }
{
    let mut pairs = Items::new(alloc);
    for item in items.as_slice() {
        let key = own_key(item)?;
        let tree = bare_tree(alloc, &item.content)?;
        push(&mut pairs, (key, tree))?;
    }
    Ok(pairs)
}

/// Puts a document behind the others, unless it is null.
fn put_document(trees: &mut Trees, tree: Tree) -> Result<(), Memory>
    ensures { OnOk result (trees.new ≡ (if is_null (tree_of tree) then trees.old else trees.old ++ tree ∷ [])) }
{
    match tree {
        Tree::Null => Ok(()),
        Tree::Bool(b) => push(trees, Tree::Bool(b)),
        Tree::Int(n) => push(trees, Tree::Int(n)),
        Tree::Str(text) => push(trees, Tree::Str(text)),
        Tree::List(elements) => push(trees, Tree::List(elements)),
        Tree::Map(pairs) => push(trees, Tree::Map(pairs)),
    }
}

fn trees_that_are_some(alloc: Global, items: &NotedItems) -> Result<Trees, Memory>
    ensures { IfOk result (λ ts. trees_of ts ≡ drop_null (bare_trees (items_of items.now))) }
{
    let mut trees: Trees = Items::new(alloc);
    for item in items.as_slice() {
        let tree = bare_tree(alloc, &item.content)?;
        put_document(&mut trees, tree)?;
    }
    Ok(trees)
}

/// The fault of an item whose key stands already in its map.
fn key_twice(alloc: Global, item: &NotedItem) -> Result<Fault, Memory>
    ensures { IfOk result (λ f. f ≡ key_twice (note_of item.now)) }
{
    let detail = match &item.key {
        Some(key) => key_text(alloc, key)?,
        None => Text::of(alloc, "null")?,
    };
    Ok(Fault {
        kind: FaultKind::KeyTwice,
        place: Some(item.place),
        detail,
    })
}

/// The trees of noted documents without their notes, and without the documents that are null.
///
/// The first item in text order whose key stands already in its map is KeyTwice at its place, with
/// the key as it is printed for its detail (YAML 1.2.2, 3.2.1.3). Want of memory is `Stop::Memory`.
#[tactic(auto, unfolding(yaml_spec::specs::Read::distinct))]
pub fn plain_trees(alloc: Global, documents: &NotedDocs) -> Result<Trees, Stop>
    ensures { Gives trees_of result (plain_trees (documents_of documents.now)) }
{
    if let Some(item) = twice_below(alloc, &documents.items)? {
        return Err(Stop::Fault(key_twice(alloc, item)?));
    }
    Ok(trees_that_are_some(alloc, &documents.items)?)
}
