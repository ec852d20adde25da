// JSON as trees.
ghost use Rattle.std.specs.Prelude.{◌≡◌, ◌++◌, ◌∷◌, [], IfOk, OnOk, option_map};
ghost use Rattle.module_spec.specs.JsonCodec as plain;
ghost use Rattle.serde_json.specs.View.{items_view, members_view, number_view, view};
ghost use Rattle.ytt_base.specs.View.{pairs_of, tree_of, trees_of};
ghost use Rattle.ytt_base.specs.declared.tree.Key.TheVariants as key_text;

use crate::list::push;
use serde_json::{Map, Number, Value as Json};
use sqlite_items::Items;
use std::alloc::Global;
use ytt_base::text::{Memory, Text};
use ytt_base::tree::{Key, Pairs, Tree, Trees};

/// The tree that a value of JSON is, unless a number in it is a float.
#[cycle(read)]
pub(crate) fn tree_of(alloc: Global, json: &Json) -> Result<Option<Tree>, Memory>
    ensures { IfOk result (λ o. option_map tree_of o ≡ plain.tree_of (view json.now)) }
{
    match json {
        Json::Null => Ok(Some(Tree::Null)),
        Json::Bool(b) => Ok(Some(Tree::Bool(*b))),
        Json::Number(number) => Ok(number_tree(number)),
        Json::String(text) => Ok(Some(Tree::Str(Text::of(alloc, text.as_str())?))),
        Json::Array(items) => match trees_of(alloc, items.as_slice())? {
            Some(trees) => Ok(Some(Tree::List(trees))),
            None => Ok(None),
        },
        Json::Object(members) => match pairs_of(alloc, members)? {
            Some(pairs) => Ok(Some(Tree::Map(pairs))),
            None => Ok(None),
        },
    }
}

/// A number that is an integer.
fn number_tree(number: &Number) -> Option<Tree>
    ensures { option_map tree_of result ≡ plain.number_tree (number_view number.now) }
{
    if let Some(natural) = number.as_u64() {
        return Some(Tree::Int(i128::from(natural)));
    }
    match number.as_i64() {
        Some(integer) => Some(Tree::Int(i128::from(integer))),
        None => None,
    }
}

#[cycle(read)]
fn trees_of(alloc: Global, items: &[Json]) -> Result<Option<Trees>, Memory>
    ensures { IfOk result (λ o. option_map trees_of o ≡ plain.trees_of (items_view items.now)) }
{
    let mut trees = Items::new(alloc);
    for item in items {
        match tree_of(alloc, item)? {
            Some(tree) => push(&mut trees, tree)?,
            None => return Ok(None),
        }
    }
    Ok(Some(trees))
}

#[cycle(read)]
fn pairs_of(alloc: Global, members: &Map<String, Json>) -> Result<Option<Pairs>, Memory>
    ensures { IfOk result (λ o. option_map pairs_of o ≡ plain.pairs_of (members_view members.now.entries)) }
{
    let mut pairs = Items::new(alloc);
    for (key, member) in members.iter() {
        match tree_of(alloc, member)? {
            Some(tree) => put_pair(alloc, &mut pairs, key.as_str(), tree)?,
            None => return Ok(None),
        }
    }
    Ok(Some(pairs))
}

/// Puts a tree under a key behind other pairs.
fn put_pair(alloc: Global, pairs: &mut Pairs, key: &str, tree: Tree) -> Result<(), Memory>
    ensures { OnOk result (pairs.new ≡ pairs.old ++ (key_text.Str key.now, tree) ∷ []) }
{
    let name = Text::of(alloc, key)?;
    push(pairs, (Key::Str(name), tree))
}
