// Where the first offence stands.
ghost use Rattle.std.specs.Prelude.{◌≡◌, [], ◌∷◌, false, true, IfOk, reverse};
ghost use Rattle.std.specs.Option.{option_map};
ghost use Rattle.ytt_base.specs.Trees.{key as key_step};
ghost use Rattle.ytt_base.specs.View.{key_of, pairs_of, path_of, step_of, tree_of, trees_of};
ghost use Rattle.schema_spec.specs.Clauses.{OffendsAt};
ghost use Rattle.schema_spec.specs.Offences.{first_offence};
ghost use Rattle.schema_check.specs.First.{told, told_among, told_in, told_unless_fits};
ghost use Rattle.schema_check.specs.Told.{back_of, sees};
ghost use Rattle.schema_check.specs.View.{schema_of, types_of};

use crate::types::{Schema, TypePairs};
use crate::wants::{WantsItem, WantsMembers, fits, of_list, of_map};
use sqlite_items::Items;
use std::alloc::Global;
use ytt_base::text::Memory;
use ytt_base::tree::{Key, Pairs, Path, Step, Tree, Trees};

/// Where an offence stands, from the whole tree on, and whether it is a key that its map's type doesn't have.
#[derive(Drop)]
pub struct Offence {
    pub path: Path,
    pub unknown_key: bool,
}

/// An offence at the tree itself.
fn here(alloc: Global) -> Offence
    ensures { back_of result ≡ ([], false) }
{
    Offence {
        path: Items::new(alloc),
        unknown_key: false,
    }
}

/// An offence in a member. Its path is gathered from the inside: this step is its last one.
fn below(offence: Offence, step: Step) -> Result<Offence, Memory>
    ensures { IfOk result (λ o. back_of o ≡ (step_of step ∷ (back_of offence).0, (back_of offence).1)) }
{
    let Offence {
        mut path,
        unknown_key,
    } = offence;
    path.push(step)?;
    Ok(Offence { path, unknown_key })
}

/// An unknown key of the map itself.
fn unknown(alloc: Global, key: &Key) -> Result<Offence, Memory>
    ensures { IfOk result (λ o. back_of o ≡ (key_step (key_of key.now) ∷ [], true)) }
{
    let mut path = Items::new(alloc);
    path.push(Step::Key(key.copy()?))?;
    Ok(Offence {
        path,
        unknown_key: true,
    })
}

/// An offence at the tree itself, where it is a scalar that isn't of the type.
fn scalar_offence(alloc: Global, tree: &Tree, schema: &Schema) -> Option<Offence>
    ensures { option_map back_of result ≡ told_unless_fits (schema_of schema.now) (tree_of tree.now) }
{
    if fits(schema, tree) {
        None
    } else {
        Some(here(alloc))
    }
}

/// The first offence in a tree. Its path is gathered from the inside.
#[cycle(path)]
fn offence_in(alloc: Global, tree: &Tree, schema: &Schema) -> Result<Option<Offence>, Memory>
    ensures { IfOk result (λ o. option_map back_of o ≡ told (first_offence (schema_of schema.now) (tree_of tree.now))) }
{
    match tree {
        Tree::List(trees) => match of_list(schema) {
            WantsItem::Anything => Ok(None),
            WantsItem::These(item) => among_elements(alloc, trees, item),
            WantsItem::Another => Ok(Some(here(alloc))),
        },
        Tree::Map(pairs) => match of_map(schema) {
            WantsMembers::Anything => Ok(None),
            WantsMembers::These(types) => among_pairs(alloc, pairs, types),
            WantsMembers::Another => Ok(Some(here(alloc))),
        },
        Tree::Null => Ok(scalar_offence(alloc, tree, schema)),
        Tree::Bool(_) => Ok(scalar_offence(alloc, tree, schema)),
        Tree::Int(_) => Ok(scalar_offence(alloc, tree, schema)),
        Tree::Str(_) => Ok(scalar_offence(alloc, tree, schema)),
    }
}

/// The first offence among the elements of a list.
#[cycle(path)]
fn among_elements(alloc: Global, trees: &Trees, item: &Schema) -> Result<Option<Offence>, Memory>
    ensures { IfOk result (λ o. option_map back_of o ≡ told_among (schema_of item.now) 0 (trees_of trees.now)) }
{
    for (index, tree) in trees.as_slice().iter().enumerate() {
        if let Some(offence) = offence_in(alloc, tree, item)? {
            return Ok(Some(below(offence, Step::Index(index as u64))?));
        }
    }
    Ok(None)
}

/// The first offence among the pairs of a map.
#[cycle(path)]
fn among_pairs(alloc: Global, pairs: &Pairs, types: &TypePairs) -> Result<Option<Offence>, Memory>
    ensures { IfOk result (λ o. option_map back_of o ≡ told_in (types_of types.now) (pairs_of pairs.now)) }
{
    for (key, tree) in pairs.as_slice() {
        match types.member(key) {
            None => return Ok(Some(unknown(alloc, key)?)),
            Some(own) => {
                if let Some(offence) = offence_in(alloc, tree, own)? {
                    return Ok(Some(below(offence, Step::Key(key.copy()?))?));
                }
            }
        }
    }
    Ok(None)
}

/// The steps, the last one first.
fn turned(alloc: Global, mut steps: Path) -> Result<Path, Memory>
    ensures { IfOk result (λ p. path_of p ≡ reverse (path_of steps)) }
{
    let mut path = Items::new(alloc);
    while let Some(step) = steps.pop() {
        path.push(step)?;
    }
    Ok(path)
}

/// Where the first offence in a tree against a type stands, that of `first_offence`, or `None` where the tree is of the type. The error is
/// want of memory.
pub fn offence_path(alloc: Global, schema: &Schema, tree: &Tree) -> Result<Option<Offence>, Memory>
    ensures { OffendsAt sees result (schema_of schema.now) (tree_of tree.now) }
{
    match offence_in(alloc, tree, schema)? {
        None => Ok(None),
        Some(Offence { path, unknown_key }) => Ok(Some(Offence {
            path: turned(alloc, path)?,
            unknown_key,
        })),
    }
}
