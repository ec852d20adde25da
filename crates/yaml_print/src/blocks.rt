// Lists and maps, line by line.
ghost use Rattle.std.specs.Prelude.{◌+◌, ◌∷◌, ◌++◌, List, codes};
ghost use Rattle.ytt_base.specs.View.{key_of, pairs_of, tree_of, trees_of};
ghost use Rattle.yaml_print.specs.Indent.{width};
ghost use Rattle.yaml_print.specs.Puts.{Puts};
ghost use Rattle.yaml_spec.specs.Bytes.{colon};
ghost use Rattle.yaml_spec.specs.Text.{key_text, list_text, map_text, node_text, pair_text, spaces};

use crate::indent::{Indent, write_indent};
use crate::put::Put;
use crate::scalar::{write_key, write_line};
use ytt_base::tree::{Key, Tree};

/// What stands behind a key and its colon, in a map at this indent.
#[cycle(print)]
fn write_behind_key<W: Put>(tree: &Tree, indent: &Indent<'_>, out: &mut W)
    ensures { Puts W.has out.old out.new (pair_text (width indent.now) (tree_of tree.now)) }
{
    match tree {
        Tree::List(trees) => {
            if trees.len() == 0 {
                out.put(" []\n");
                return;
            }
            out.put("\n");
            write_elements(trees.as_slice(), indent, out);
        }
        Tree::Map(pairs) => {
            if pairs.len() == 0 {
                out.put(" {}\n");
                return;
            }
            out.put("\n");
            write_pairs(pairs.as_slice(), &Indent::inside(&*indent), out);
        }
        _ => {
            out.put(" ");
            write_line(tree, &Indent::inside(&*indent), out);
        }
    }
}

/// What stands behind a dash and its space, or in a document: a list or map there has this
/// indent, and its first line begins here.
#[cycle(print)]
pub fn write_node<W: Put>(tree: &Tree, indent: &Indent<'_>, out: &mut W)
    ensures { Puts W.has out.old out.new (node_text (width indent.now) (tree_of tree.now)) }
{
    match tree {
        Tree::List(trees) => match trees.as_slice().split_first() {
            None => out.put("[]\n"),
            Some((first, rest)) => {
                write_element(first, indent, out);
                write_elements(rest, indent, out);
            }
        },
        Tree::Map(pairs) => match pairs.as_slice().split_first() {
            None => out.put("{}\n"),
            Some(((key, value), rest)) => {
                write_pair(key, value, indent, out);
                write_pairs(rest, indent, out);
            }
        },
        _ => write_line(tree, indent, out),
    }
}

/// A dash, its space and what stands behind.
#[cycle(print)]
fn write_element<W: Put>(tree: &Tree, indent: &Indent<'_>, out: &mut W)
    ensures { Puts W.has out.old out.new (codes "- " ++ node_text (width indent.now + 2) (tree_of tree.now)) }
{
    out.put("- ");
    write_node(tree, &Indent::inside(&*indent), out);
}

/// A key, its colon and what stands behind.
#[cycle(print)]
fn write_pair<W: Put>(key: &Key, tree: &Tree, indent: &Indent<'_>, out: &mut W)
    ensures { Puts W.has out.old out.new (key_text (key_of key.now) ++ (colon ∷ pair_text (width indent.now) (tree_of tree.now))) }
{
    write_key(key, out);
    out.put(":");
    write_behind_key(tree, indent, out);
}

/// The elements of a list at this indent, each from the start of a line.
#[cycle(print)]
fn write_elements<W: Put>(trees: &[Tree], indent: &Indent<'_>, out: &mut W)
    ensures { Puts W.has out.old out.new (list_text (spaces (width indent.now)) (width indent.now) (trees_of trees.now)) }
{
    for tree in trees {
        write_indent(indent, out);
        write_element(tree, indent, out);
    }
}

/// The pairs of a map at this indent, each from the start of a line.
#[cycle(print)]
fn write_pairs<W: Put>(pairs: &[(Key, Tree)], indent: &Indent<'_>, out: &mut W)
    ensures { Puts W.has out.old out.new (map_text (spaces (width indent.now)) (width indent.now) (pairs_of pairs.now)) }
{
    for (key, tree) in pairs {
        write_indent(indent, out);
        write_pair(key, tree, indent, out);
    }
}
