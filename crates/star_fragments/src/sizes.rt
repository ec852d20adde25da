// The steps of what stands in fragments.
ghost use Rattle.value_spec.specs.Built.{below};
ghost use Rattle.star_steps.specs.Names.{body_paid, built_in, children_paid, key_paid, scalar_paid, seen, Meets, as_is, state_in};
ghost use Rattle.star_fragments.specs.Nodes.{key_in, node_in, part_paid, parts_in, scalar_in};

use crate::node::{Leaf, Node, Part, Parts, first_part};
use object_arena::{Arena, BuiltItem};
use star_steps::{Depth, Paid, pay, refusal};
use ytt_base::fault::{FaultKind, Place};

/// How many collections may stand in one another.
pub(crate) const MAX_DEPTH: u32 = 100;

fn pay_leaf(arena: &Arena, place: Place, leaf: Leaf<'_>, steps: &mut u64) -> Paid
    ensures { Meets as_is result (state_in (seen arena.now) steps.new) (scalar_paid place (scalar_in leaf.entry) (state_in (seen arena.now) steps.old)) }
{
    match leaf {
        Leaf::Str(text) => pay(arena, place, text.as_str().len() as u128 / 16, steps),
        Leaf::Null => Ok(()),
        Leaf::Bool(_) => Ok(()),
        Leaf::Int(_) => Ok(()),
    }
}

fn pay_key(arena: &Arena, place: Place, key: Option<Leaf<'_>>, steps: &mut u64) -> Paid
    ensures { Meets as_is result (state_in (seen arena.now) steps.new) (key_paid place (key_in key.entry) (state_in (seen arena.now) steps.old)) }
{
    match key {
        None => Ok(()),
        Some(leaf) => pay_leaf(arena, place, leaf, steps),
    }
}

/// Takes the size of what stands in a fragment as steps, where collections may nest so many levels: 1 for each member, and a
/// sixteenth of the bytes of each text.
#[cycle(size)]
pub fn pay_node(arena: &Arena, at: Depth, node: Node<'_>, steps: &mut u64) -> Paid
    ensures { Meets as_is result (state_in (seen arena.now) steps.new) (body_paid at.place at.levels (node_in (seen arena.now).held node.entry) (state_in (seen arena.now) steps.old)) }
{
    match node {
        Node::Leaf(leaf) => pay_leaf(arena, at.place, leaf, steps),
        Node::List(parts) => pay_below(arena, at, parts, steps),
        Node::Map(parts) => pay_below(arena, at, parts, steps),
    }
}

#[cycle(size)]
fn pay_below(arena: &Arena, at: Depth, parts: Parts<'_>, steps: &mut u64) -> Paid
    ensures { Meets as_is result (state_in (seen arena.now) steps.new) (below at.place at.levels (λ m. children_paid at.place m (parts_in (seen arena.now).held parts.entry)) (state_in (seen arena.now) steps.old)) }
{
    if at.levels == 0 {
        return Err(refusal(arena, FaultKind::TooDeep, at.place));
    }
    let mut inside = at;
    inside.levels -= 1;
    pay_parts(arena, inside, parts, steps)
}

#[cycle(size)]
fn pay_parts(arena: &Arena, at: Depth, parts: Parts<'_>, steps: &mut u64) -> Paid
    ensures { Meets as_is result (state_in (seen arena.now) steps.new) (children_paid at.place at.levels (parts_in (seen arena.now).held parts.entry) (state_in (seen arena.now) steps.old)) }
{
    let mut left = parts;
    while let Some(part) = first_part(left) {
        pay_part(arena, at, part, steps)?;
        left = part.rest;
    }
    Ok(())
}

/// The same of a part: a step, its key, and what it holds.
#[cycle(size)]
fn pay_part(arena: &Arena, at: Depth, part: Part<'_>, steps: &mut u64) -> Paid
    ensures { Meets as_is result (state_in (seen arena.now) steps.new) (part_paid at.place at.levels (key_in part.entry.key) (node_in (seen arena.now).held part.entry.node) (state_in (seen arena.now) steps.old)) }
{
    pay(arena, at.place, 1, steps)?;
    pay_key(arena, at.place, part.key, steps)?;
    pay_node(arena, at, part.node, steps)
}

/// Takes the size of items as steps, where collections may nest so many levels: 1 for each, and what its key and what it holds take. A
/// collection that nests deeper is `TooDeep`.
pub fn pay_items(
    arena: &Arena,
    place: Place,
    levels: u32,
    items: &[BuiltItem],
    steps: &mut u64,
) -> Paid
    ensures { Meets as_is result (state_in (seen arena.now) steps.new) (below place levels (λ m. children_paid place m (built_in (seen arena.now).held items.now)) (state_in (seen arena.now) steps.old)) }
{
    pay_below(arena, Depth { place, levels }, Parts::Items(items), steps)
}
