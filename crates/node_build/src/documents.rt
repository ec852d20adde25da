// The trees of what was built.
ghost use Rattle.std.specs.Prelude.{◌≡◌, ◌∷◌, ◌++◌, [], List, IfOk, OnOk, if◌then◌else◌};
ghost use Rattle.ytt_base.specs.Trees.{is_null};
ghost use Rattle.ytt_base.specs.View.{pairs_of, tree_of, trees_of};
ghost use Rattle.star_values.specs.View.{body_in, built_in};
ghost use Rattle.template_meaning.specs.Meaning.{documents};
ghost use Rattle.value_spec.specs.Built.{body_tree, children_pairs, children_trees};
ghost use Rattle.value_spec.specs.Values as plain;

use crate::list::push;
use object_arena::{BuiltItem, BuiltValue};
use sqlite_items::Items;
use std::alloc::Global;
use ytt_base::text::Memory;
use ytt_base::tree::{Pairs, Tree, Trees};

/// The tree of what an item holds.
#[cycle(trees)]
fn tree_of_value(alloc: Global, value: &BuiltValue) -> Result<Tree, Memory>
    ensures { (held : List plain.Value) → IfOk result (λ t. tree_of t ≡ body_tree (body_in held value.now)) }
{
    match value {
        BuiltValue::One(tree) => tree.copy(alloc),
        BuiltValue::Map(items) => Ok(Tree::Map(pairs_of_items(alloc, items.as_slice())?)),
        BuiltValue::List(items) => Ok(Tree::List(trees_of_items(alloc, items.as_slice())?)),
    }
}

/// The trees of items.
#[cycle(trees)]
pub(crate) fn trees_of_items(alloc: Global, items: &[BuiltItem]) -> Result<Trees, Memory>
    ensures { (held : List plain.Value) → IfOk result (λ ts. trees_of ts ≡ children_trees (built_in held items.now)) }
{
    let mut trees = Items::new(alloc);
    for item in items {
        let tree = tree_of_value(alloc, &item.value)?;
        push(&mut trees, tree)?;
    }
    Ok(trees)
}

/// The pairs of a map. An item without a key is no pair. No key stands twice, as `spot_for` sees to it.
#[cycle(trees)]
pub(crate) fn pairs_of_items(alloc: Global, items: &[BuiltItem]) -> Result<Pairs, Memory>
    ensures { (held : List plain.Value) → IfOk result (λ ps. pairs_of ps ≡ children_pairs (built_in held items.now)) }
{
    let mut pairs = Items::new(alloc);
    for item in items {
        match &item.key {
            None => {}
            Some(key) => {
                let tree = tree_of_value(alloc, &item.value)?;
                push(&mut pairs, (key.copy()?, tree))?;
            }
        }
    }
    Ok(pairs)
}

fn is_null_tree(tree: &Tree) -> bool
    ensures { result ≡ is_null (tree_of tree.now) }
{
    match tree {
        Tree::Null => true,
        Tree::Bool(_) => false,
        Tree::Int(_) => false,
        Tree::Str(_) => false,
        Tree::List(_) => false,
        Tree::Map(_) => false,
    }
}

/// Puts a document behind the others, unless it is null.
fn put_document(trees: &mut Trees, tree: Tree) -> Result<(), Memory>
    ensures { OnOk result (trees.new ≡ (if is_null (tree_of tree) then trees.old else trees.old ++ tree ∷ [])) }
{
    if is_null_tree(&tree) {
        return Ok(());
    }
    push(trees, tree)
}

/// The trees of documents, without the null ones.
pub fn documents_of(alloc: Global, items: &[BuiltItem]) -> Result<Trees, Memory>
    ensures { (held : List plain.Value) → IfOk result (λ ts. trees_of ts ≡ documents (built_in held items.now)) }
{
    let mut trees = Items::new(alloc);
    for item in items {
        let tree = tree_of_value(alloc, &item.value)?;
        put_document(&mut trees, tree)?;
    }
    Ok(trees)
}
