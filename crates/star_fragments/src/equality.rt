// Whether two fragments are equal.
ghost use Rattle.std.specs.Prelude.{◌≡◌, ◌==◌};
ghost use Rattle.star_steps.specs.Names.{List, body_tree, paid, and_then, equal_by, equal_entries, equal_scalars, equal_trees, inside_at, pair_count, seen, Owns, value_of, Meets, as_is, state_in};
ghost use Rattle.ytt_base.specs.Trees.{map};
ghost use Rattle.value_spec.specs.Values as plain;
ghost use Rattle.star_values.specs.declared.value.Value.TheVariants as value;
ghost use Rattle.star_fragments.specs.Nodes.{entries_in, node_in, scalar_in};

use crate::fragment::node_of_fragment;
use crate::node::{Entries, Entry, Leaf, Node, first_entry};
use object_arena::{Arena, Ref};
use star_steps::{Depth, Told, pay, refusal, texts_equal};
use ytt_base::fault::{FaultKind, Place};

/// Whether two fragments are equal as trees, where collections may nest so many levels. Pairs are compared in their order. It takes 1 for
/// each pair of members up to the first difference, and a sixteenth of the bytes of the shorter of two texts.
pub fn fragments_equal(arena: &Arena, at: Depth, left: Ref, right: Ref, steps: &mut u64) -> Told
    requires left { Owns (seen arena.now) (value.Fragment left) }
    requires right { Owns (seen arena.now) (value.Fragment right) }
    ensures { Meets as_is result (state_in (seen arena.now) steps.new) (equal_by (inside_at at.levels at.place) at.place (value_of (seen arena.now) (value.Fragment left)) (value_of (seen arena.now) (value.Fragment right)) (state_in (seen arena.now) steps.old)) }
{
    let first = node_of_fragment(arena, left);
    let second = node_of_fragment(arena, right);
    nodes_equal(arena, at, first, second, steps)
}

fn leaves_equal(
    arena: &Arena,
    place: Place,
    left: Leaf<'_>,
    right: Leaf<'_>,
    steps: &mut u64,
) -> Told
    ensures { Meets as_is result (state_in (seen arena.now) steps.new) (equal_scalars place (scalar_in left.entry) (scalar_in right.entry) (state_in (seen arena.now) steps.old)) }
{
    match (left, right) {
        (Leaf::Null, Leaf::Null) => Ok(true),
        (Leaf::Bool(a), Leaf::Bool(b)) => Ok(a == b),
        (Leaf::Int(a), Leaf::Int(b)) => Ok(a == b),
        (Leaf::Str(a), Leaf::Str(b)) => texts_equal(arena, place, a.as_str(), b.as_str(), steps),
        _ => Ok(false),
    }
}

/// The same of what stands in fragments.
#[cycle(equality)]
fn nodes_equal(arena: &Arena, at: Depth, left: Node<'_>, right: Node<'_>, steps: &mut u64) -> Told
    ensures { Meets as_is result (state_in (seen arena.now) steps.new) (equal_trees at.place at.levels (body_tree (node_in (seen arena.now).held left.entry)) (body_tree (node_in (seen arena.now).held right.entry)) (state_in (seen arena.now) steps.old)) }
{
    match (left, right) {
        (Node::Leaf(a), Node::Leaf(b)) => leaves_equal(arena, at.place, a, b, steps),
        (Node::List(a), Node::List(b)) => {
            let keyed = false;
            let first = Entries { keyed, parts: a };
            let second = Entries { keyed, parts: b };
            collections_equal(arena, at, first, second, steps)
        }
        (Node::Map(a), Node::Map(b)) => {
            let keyed = true;
            let first = Entries { keyed, parts: a };
            let second = Entries { keyed, parts: b };
            collections_equal(arena, at, first, second, steps)
        }
        _ => Ok(false),
    }
}

/// Whether there are as many of both.
fn are_as_many(left: Entries<'_>, right: Entries<'_>) -> bool
    ensures { (held : List plain.Value) → result ≡ (pair_count (entries_in held left.entry) == pair_count (entries_in held right.entry)) }
{
    let mut lefts = left;
    let mut rights = right;
    while let Some(first) = first_entry(lefts) {
        match first_entry(rights) {
            None => return false,
            Some(second) => {
                lefts = first.rest;
                rights = second.rest;
            }
        }
    }
    match first_entry(rights) {
        None => true,
        Some(_) => false,
    }
}

/// The same of two lists, or of two maps.
#[cycle(equality)]
fn collections_equal(
    arena: &Arena,
    at: Depth,
    left: Entries<'_>,
    right: Entries<'_>,
    steps: &mut u64,
) -> Told
    ensures { Meets as_is result (state_in (seen arena.now) steps.new) (equal_trees at.place at.levels (map (entries_in (seen arena.now).held left.entry)) (map (entries_in (seen arena.now).held right.entry)) (state_in (seen arena.now) steps.old)) }
{
    if at.levels == 0 {
        return Err(refusal(arena, FaultKind::TooDeep, at.place));
    }
    if !are_as_many(left, right) {
        return Ok(false);
    }
    let mut inside = at;
    inside.levels -= 1;
    entries_equal(arena, inside, left, right, steps)
}

#[cycle(equality)]
fn entries_equal(
    arena: &Arena,
    at: Depth,
    left: Entries<'_>,
    right: Entries<'_>,
    steps: &mut u64,
) -> Told
    ensures { Meets as_is result (state_in (seen arena.now) steps.new) (equal_entries at.place at.levels (entries_in (seen arena.now).held left.entry) (entries_in (seen arena.now).held right.entry) (state_in (seen arena.now) steps.old)) }
{
    let mut lefts = left;
    let mut rights = right;
    while let Some(first) = first_entry(lefts) {
        match first_entry(rights) {
            None => return Ok(true),
            Some(second) => {
                if !entry_equal(arena, at, first, second, steps)? {
                    return Ok(false);
                }
                lefts = first.rest;
                rights = second.rest;
            }
        }
    }
    Ok(true)
}

/// The same of two pairs, the keys first. It takes a step.
#[cycle(equality)]
fn entry_equal(arena: &Arena, at: Depth, left: Entry<'_>, right: Entry<'_>, steps: &mut u64) -> Told
    ensures { Meets as_is result (state_in (seen arena.now) steps.new) (paid at.place (and_then (equal_scalars at.place (scalar_in left.entry.key) (scalar_in right.entry.key)) (equal_trees at.place at.levels (body_tree (node_in (seen arena.now).held left.entry.node)) (body_tree (node_in (seen arena.now).held right.entry.node)))) (state_in (seen arena.now) steps.old)) }
{
    pay(arena, at.place, 1, steps)?;
    if !leaves_equal(arena, at.place, left.key, right.key, steps)? {
        return Ok(false);
    }
    nodes_equal(arena, at, left.node, right.node, steps)
}
