// Nodes that end.
ghost use Rattle.std.specs.Prelude.{◌≡◌, List, OnErr, false};
ghost use Rattle.star_tree.specs.View.{holds_of};
ghost use Rattle.star_fragments.specs.Fresh.{OwnsBody};
ghost use Rattle.star_values.specs.Owns.{OwnsBuilt, OwnsItem};
ghost use Rattle.star_values.specs.View.{View, body_in, built_in};
ghost use Rattle.node_build.specs.Ends.{SameButChildren, added, closing, gives_many};
ghost use Rattle.node_build.specs.Positions.{AreKnown, Leaves};
ghost use Rattle.node_build.specs.View.{OwnsFilled, OwnsNode, filled_in};
ghost use Rattle.template_meaning.specs.Run.{closed_with};
ghost use Rattle.value_spec.specs.Values as plain;
ghost use Rattle.value_spec.specs.Values.{taken};

use crate::add::{add_many, spot_for};
use crate::list::make_room;
use crate::members::Members;
use crate::node::{Filled, OpenNode};
use crate::place::place;
use object_arena::{Built, BuiltItem, BuiltValue};
use sqlite_items::Items;
use star_tree::Holds;
use std::alloc::Global;
use std::mem;
use yaml_keys::Seen;
use ytt_base::fault::Stop;
use ytt_base::tree::Tree;

/// Whether a node gives items in its place.
fn gives_many(node: &OpenNode) -> bool
    ensures { result ≡ gives_many node.now.holds node.now.value }
{
    match node.holds {
        Holds::One => match &node.value {
            Filled::One(_) => false,
            Filled::Many(_) => true,
        },
        Holds::Map => false,
        Holds::List => false,
        Holds::Void => false,
    }
}

/// What a node holds at its end that gives one item.
fn body(holds: Holds, value: Filled, children: Built) -> BuiltValue
    requires { gives_many holds value ≡ false }
    ensures meaning { (held : List plain.Value) → closed_with (holds_of holds) (filled_in held value) (built_in held children) ≡ taken (body_in held result) }
    ensures owned { (a : View) → OwnsFilled a value → OwnsBuilt a children → OwnsBody a result }
{
    match holds {
        Holds::One => match value {
            Filled::One(body) => {
                drop(children);
                body
            }
            Filled::Many(_) => unreachable!(),
        },
        Holds::Map => {
            drop(value);
            BuiltValue::Map(children)
        }
        Holds::List => {
            drop(value);
            BuiltValue::List(children)
        }
        Holds::Void => {
            drop(value);
            drop(children);
            BuiltValue::One(Tree::Null)
        }
    }
}

/// The item that a node is built into.
fn closed(node: OpenNode) -> BuiltItem
    requires { gives_many node.holds node.value ≡ false }
    ensures place { result.place ≡ node.place }
    ensures key { result.key ≡ node.key }
    ensures notes { result.notes ≡ node.notes }
    ensures body { (held : List plain.Value) → closing held node ≡ taken (body_in held result.value) }
    ensures owned { (a : View) → OwnsNode a node → OwnsItem a result }
{
    BuiltItem {
        place: node.place,
        key: node.key,
        notes: node.notes,
        value: body(node.holds, node.value, Items::from_vec(node.children.items)),
    }
}

/// Adds a node to items as one, and leaves nothing in it.
fn add_one(
    alloc: Global,
    items: &mut Vec<BuiltItem>,
    keys: &mut Seen,
    node: &mut OpenNode,
) -> Result<(), Stop>
    requires known { AreKnown keys.old items.old.items }
    requires one { gives_many node.old.holds node.old.value ≡ false }
    ensures known { AreKnown keys.new items.new.items }
    ensures meaning { Leaves result items.new.items (λ held. added held (built_in held items.old.items) node.old) }
    ensures err { OnErr result (items.new.items ≡ items.old.items) }
    ensures kept { OnErr result (node.new ≡ node.old) }
    ensures owned { (a : View) → OwnsNode a node.old → OwnsBuilt a items.old.items → OwnsBuilt a items.new.items }
{
    let spot = spot_for(alloc, keys, items, node.place, &node.key, &node.notes)?;
    make_room(items)?;
    let empty = OpenNode::new(alloc, node.place, node.kind, node.holds);
    let item = closed(mem::replace(node, empty));
    drop(place(items, spot, item));
    Ok(())
}

/// Adds what a node gives to items.
fn add(
    alloc: Global,
    items: &mut Vec<BuiltItem>,
    keys: &mut Seen,
    node: &mut OpenNode,
) -> Result<(), Stop>
    requires { AreKnown keys.old items.old.items }
    ensures known { AreKnown keys.new items.new.items }
    ensures meaning { Leaves result items.new.items (λ held. added held (built_in held items.old.items) node.old) }
    ensures err { OnErr result (items.new.items ≡ items.old.items) }
    ensures kept { OnErr result (node.new ≡ node.old) }
    ensures owned { (a : View) → OwnsNode a node.old → OwnsBuilt a items.old.items → OwnsBuilt a items.new.items }
{
    if !gives_many(node) {
        return add_one(alloc, items, keys, node);
    }
    match &node.value {
        Filled::Many(more) => add_many(alloc, items, keys, more.as_slice()),
        Filled::One(_) => unreachable!(),
    }
}

/// Adds a node that ends to the one under it. A refusal leaves both as they were.
pub(crate) fn ended(alloc: Global, under: &mut OpenNode, node: &mut OpenNode) -> Result<(), Stop>
    ensures meaning { Leaves result under.new.children.items.items (λ held. added held (built_in held under.old.children.items.items) node.old) }
    ensures rest { SameButChildren under.old under.new }
    ensures err { OnErr result (under.new.children.items.items ≡ under.old.children.items.items) }
    ensures kept { OnErr result (node.new ≡ node.old) }
    ensures owned { (a : View) → OwnsNode a node.old → OwnsNode a under.old → OwnsNode a under.new }
{
    let Members {
        mut items,
        mut keys,
    } = mem::replace(&mut under.children, Members::new(alloc));
    let answer = add(alloc, &mut items, &mut keys, node);
    under.children = Members { items, keys };
    answer
}
