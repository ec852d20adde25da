// A fresh value for a text.
ghost use Rattle.std.specs.Prelude.{◌≡◌, ◌<◌, ◌^◌};
ghost use Rattle.module_spec.specs.YamlCodec.{given_tree, tree_bytes, tree_members};
ghost use Rattle.star_steps.specs.Names.{Gives, Owns, seen, state_in, tree_of};
ghost use Rattle.star_values.specs.declared.value.Value.TheVariants as value;
ghost use Rattle.mod_json.specs.View.{text_at};

use object_arena::{Arena, Ref};
use star_fragments::fresh_value;
use star_steps::{Given, pay};
use ytt_base::fault::Place;
use ytt_base::tree::Tree;

/// A fresh value of the tree that a text stands for. It takes a sixteenth of the bytes of the text and of a text that the tree is, and a step
/// for each member of the tree; `Steps` at the place where fewer are left.
pub fn give_tree(arena: &mut Arena, steps: &mut u64, text: Ref, tree: &Tree, at: Place) -> Given
    requires { Owns (seen arena.old) (value.Text text) }
    ensures { Gives (given_tree at (text_at (seen arena.old) text) (tree_of tree.now) (state_in (seen arena.old) steps.old)) result (seen arena.old) (seen arena.new) steps.new }
{
    let bytes = arena.text(text).as_str().len() as u128 + bytes_of(tree);
    pay(arena, at, bytes / 16 + members_of(tree), steps)?;
    Ok(fresh_value(arena, tree)?)
}

/// The bytes of a text.
fn bytes_of(tree: &Tree) -> u128
    ensures bytes { result ≡ tree_bytes (tree_of tree.now) }
    ensures few { result < 2 ^ 64 }
{
    match tree {
        Tree::Str(text) => text.as_str().len() as u128,
        _ => 0,
    }
}

/// How many members a collection has.
fn members_of(tree: &Tree) -> u128
    ensures members { result ≡ tree_members (tree_of tree.now) }
    ensures few { result < 2 ^ 64 }
{
    match tree {
        Tree::List(trees) => trees.len() as u128,
        Tree::Map(pairs) => pairs.len() as u128,
        _ => 0,
    }
}
