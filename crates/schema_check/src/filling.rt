// What is filled in where keys are missing.
ghost use Rattle.std.specs.Prelude.{◌≡◌, ℕ, ◌||◌, List, [], ◌∷◌, ◌++◌, IfOk, OnOk};
ghost use Rattle.std.specs.HashSet.{contains_text};
ghost use Rattle.ytt_base.specs.Trees.{has_key, keys, same_key, string};
ghost use Rattle.ytt_base.specs.View.{key_of, pairs_of, tree_of, trees_of};
ghost use Rattle.schema_spec.specs.Clauses.{Fills};
ghost use Rattle.schema_spec.specs.Offences.{add_pairs, fill, fill_pairs, fill_trees, missing};
ghost use Rattle.schema_check.specs.Filled.{unless_there};
ghost use Rattle.schema_check.specs.View.{schema_of, types_of};

use crate::types::{Schema, TypePairs};
use crate::wants::{WantsItem, WantsMembers, of_list, of_map};
use sqlite_items::Items;
use std::alloc::Global;
use std::collections::HashSet;
use ytt_base::text::{Memory, Text};
use ytt_base::tree::{Key, Pairs, Tree, Trees};

/// Puts an item behind those of a list.
fn push<T: Drop>(items: &mut Items<T>, item: T) -> Result<(), Memory>
    ensures { OnOk result (items.new ≡ items.old ++ item ∷ []) }
{
    items.push(item)?;
    Ok(())
}

/// Adds a key, if it is a text.
fn add_text(alloc: Global, names: &mut HashSet<String>, key: &Key) -> Result<(), Memory>
    ensures { OnOk result ((n : List ℕ) → contains_text names.new n ≡ (same_key (string n) (key_of key.now) || contains_text names.old n)) }
{
    match key {
        Key::Str(text) => {
            names.insert(String::from_str(alloc, text.as_str())?)?;
            Ok(())
        }
        Key::Null => Ok(()),
        Key::Bool(_) => Ok(()),
        Key::Int(_) => Ok(()),
    }
}

/// The text keys of a map.
fn text_keys(alloc: Global, pairs: &Pairs) -> Result<HashSet<String>, Memory>
    ensures { IfOk result (λ names. (n : List ℕ) → contains_text names n ≡ has_key (string n) (keys (pairs_of pairs.now))) }
{
    let mut names = HashSet::new(alloc);
    for (key, _) in pairs.as_slice() {
        add_text(alloc, &mut names, key)?;
    }
    Ok(names)
}

/// Adds the default of a name behind the pairs, unless the name is among these.
fn add_default(
    alloc: Global,
    filled: &mut Pairs,
    names: &HashSet<String>,
    name: &Text,
    schema: &Schema,
) -> Result<(), Memory>
    ensures { OnOk result (filled.new ≡ unless_there (contains_text names.now name.now) filled.old name.now schema.now.default) }
{
    if names.contains(name.as_str()) {
        return Ok(());
    }
    let tree = schema.default.copy(alloc)?;
    push(filled, (Key::Str(name.copy()?), tree))
}

/// Adds the defaults of the keys that `pairs` lacks behind those that are filled, in the type's order.
fn add_missing(
    alloc: Global,
    filled: &mut Pairs,
    pairs: &Pairs,
    types: &TypePairs,
) -> Result<(), Memory>
    ensures { OnOk result (pairs_of filled.new ≡ add_pairs (pairs_of filled.old) (missing (types_of types.now) (keys (pairs_of pairs.now)))) }
{
    let names = text_keys(alloc, pairs)?;
    for at in 0..types.len() {
        match types.get(at) {
            None => {}
            Some((name, schema)) => add_default(alloc, filled, &names, name, schema)?,
        }
    }
    Ok(())
}

/// A tree as it is where it is filled.
#[cycle(fill)]
fn filled(alloc: Global, tree: &Tree, schema: &Schema) -> Result<Tree, Memory>
    ensures { IfOk result (λ t. tree_of t ≡ fill (schema_of schema.now) (tree_of tree.now)) }
{
    match tree {
        Tree::List(trees) => match of_list(schema) {
            WantsItem::Anything => tree.copy(alloc),
            WantsItem::These(item) => Ok(Tree::List(filled_trees(alloc, trees, item)?)),
            WantsItem::Another => tree.copy(alloc),
        },
        Tree::Map(pairs) => match of_map(schema) {
            WantsMembers::Anything => tree.copy(alloc),
            WantsMembers::These(types) => {
                let mut filled = filled_pairs(alloc, pairs, types)?;
                add_missing(alloc, &mut filled, pairs, types)?;
                Ok(Tree::Map(filled))
            }
            WantsMembers::Another => tree.copy(alloc),
        },
        Tree::Null => tree.copy(alloc),
        Tree::Bool(_) => tree.copy(alloc),
        Tree::Int(_) => tree.copy(alloc),
        Tree::Str(_) => tree.copy(alloc),
    }
}

/// The elements of a list, each filled.
#[cycle(fill)]
fn filled_trees(alloc: Global, trees: &Trees, item: &Schema) -> Result<Trees, Memory>
    ensures { IfOk result (λ ts. trees_of ts ≡ fill_trees (schema_of item.now) (trees_of trees.now)) }
{
    let mut all = Items::new(alloc);
    for tree in trees.as_slice() {
        let tree = filled(alloc, tree, item)?;
        push(&mut all, tree)?;
    }
    Ok(all)
}

/// The pairs of a map, the value of each known key filled.
#[cycle(fill)]
fn filled_pairs(alloc: Global, pairs: &Pairs, types: &TypePairs) -> Result<Pairs, Memory>
    ensures { IfOk result (λ ps. pairs_of ps ≡ fill_pairs (types_of types.now) (pairs_of pairs.now)) }
{
    let mut all = Items::new(alloc);
    for (key, tree) in pairs.as_slice() {
        let tree = match types.member(key) {
            Some(own) => filled(alloc, tree, own)?,
            None => tree.copy(alloc)?,
        };
        push(&mut all, (key.copy()?, tree))?;
    }
    Ok(all)
}

/// A copy of a tree with the defaults of the keys that its maps lack: behind the keys that are there, in the type's order, and in the items
/// of lists too. Where a type allows anything, and where the tree isn't of the type, it is copied as it is. The error is want of memory.
pub fn fill(alloc: Global, schema: &Schema, tree: &Tree) -> Result<Tree, Memory>
    ensures { Fills tree_of result (schema_of schema.now) (tree_of tree.now) }
{
    filled(alloc, tree, schema)
}
