// The node and the type of the first offence.
ghost use Rattle.std.specs.Prelude.{◌≡◌};
ghost use Rattle.std.specs.Option.{option_map};
ghost use Rattle.ytt_base.specs.View.{pairs_of, tree_of, trees_of};
ghost use Rattle.schema_spec.specs.Clauses.{FindsOffence, found};
ghost use Rattle.schema_spec.specs.Offences.{first_offence};
ghost use Rattle.schema_check.specs.First.{found_among, found_in, unless_fits};
ghost use Rattle.schema_check.specs.View.{offender_of, schema_of, types_of};

use crate::types::{Schema, TypePairs};
use crate::wants::{WantsItem, WantsMembers, fits, of_list, of_map};
use ytt_base::tree::{Pairs, Tree, Trees};

/// The tree itself with its type, where it is a scalar that isn't of it.
fn scalar_offence<'a>(tree: &'a Tree, schema: &'a Schema) -> Option<(&'a Schema, &'a Tree)>
    ensures { option_map offender_of result ≡ unless_fits (schema_of schema.now) (tree_of tree.now) }
{
    if fits(schema, tree) {
        None
    } else {
        Some((schema, tree))
    }
}

/// The first offence in a tree.
#[cycle(find)]
fn offence_of<'a>(tree: &'a Tree, schema: &'a Schema) -> Option<(&'a Schema, &'a Tree)>
    ensures { option_map offender_of result ≡ found (first_offence (schema_of schema.now) (tree_of tree.now)) }
{
    match tree {
        Tree::List(trees) => match of_list(schema) {
            WantsItem::Anything => None,
            WantsItem::These(item) => among_elements(trees, item),
            WantsItem::Another => Some((schema, tree)),
        },
        Tree::Map(pairs) => match of_map(schema) {
            WantsMembers::Anything => None,
            WantsMembers::These(types) => among_pairs(pairs, types, schema, tree),
            WantsMembers::Another => Some((schema, tree)),
        },
        Tree::Null => scalar_offence(tree, schema),
        Tree::Bool(_) => scalar_offence(tree, schema),
        Tree::Int(_) => scalar_offence(tree, schema),
        Tree::Str(_) => scalar_offence(tree, schema),
    }
}

/// The first offence among the elements of a list.
#[cycle(find)]
fn among_elements<'a>(trees: &'a Trees, item: &'a Schema) -> Option<(&'a Schema, &'a Tree)>
    ensures { option_map offender_of result ≡ found_among (schema_of item.now) (trees_of trees.now) }
{
    for tree in trees.as_slice() {
        let found = offence_of(tree, item);
        if found.is_some() {
            return found;
        }
    }
    None
}

/// The first offence among the pairs of a map; where a key is unknown, it is `whole` with its type.
#[cycle(find)]
fn among_pairs<'a>(
    pairs: &'a Pairs,
    types: &'a TypePairs,
    schema: &'a Schema,
    whole: &'a Tree,
) -> Option<(&'a Schema, &'a Tree)>
    ensures { option_map offender_of result ≡ found_in (schema_of schema.now, tree_of whole.now) (types_of types.now) (pairs_of pairs.now) }
{
    for (key, tree) in pairs.as_slice() {
        match types.member(key) {
            None => return Some((schema, whole)),
            Some(own) => {
                let found = offence_of(tree, own);
                if found.is_some() {
                    return found;
                }
            }
        }
    }
    None
}

/// The first offence in a tree against a type, in the tree's order and a node before its members: the node and the type that it should
/// have, or for a key that a map's type doesn't have the map and its type. `None` where the tree is of the type. It takes no memory.
pub fn first_offence<'a>(schema: &'a Schema, tree: &'a Tree) -> Option<(&'a Schema, &'a Tree)>
    ensures { FindsOffence offender_of result (schema_of schema.now) (tree_of tree.now) }
{
    offence_of(tree, schema)
}
