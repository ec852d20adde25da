// Fragments, and what they are made of.
ghost use Rattle.std.specs.Prelude.{◌≡◌};
ghost use Rattle.star_steps.specs.Names.{fragment_body, item_kind_of, seen, Owns, OwnsBuilt, built_in};
ghost use Rattle.star_values.specs.declared.value.Value.TheVariants as value;
ghost use Rattle.star_fragments.specs.Fragments.{children_at, kind_at};
ghost use Rattle.star_fragments.specs.Nodes.{node_in, spread_body};

use crate::node::{Node, Parts};
use object_arena::{Arena, BuiltItem, ItemKind, Ref, Shape};

/// The items of a fragment.
pub fn items_of(arena: &Arena, fragment: Ref) -> &[BuiltItem]
    requires { Owns (seen arena.now) (value.Fragment fragment) }
    ensures items { children_at (seen arena.now) fragment ≡ built_in (seen arena.now).held result.now }
    ensures owned { OwnsBuilt (seen arena.now) result.now }
{
    match arena.shape(fragment) {
        Shape::Fragment(_, items) => items.as_slice(),
        _ => unreachable!(),
    }
}

/// The kind of the items of a fragment.
pub fn kind_of(arena: &Arena, fragment: Ref) -> ItemKind
    requires { Owns (seen arena.now) (value.Fragment fragment) }
    ensures { item_kind_of result ≡ kind_at (seen arena.now) fragment }
{
    match arena.shape(fragment) {
        Shape::Fragment(kind, _) => kind,
        _ => unreachable!(),
    }
}

/// What a fragment is: a map of pairs, or a list of elements or documents.
pub fn node_of_fragment(arena: &Arena, fragment: Ref) -> Node<'_>
    requires { Owns (seen arena.now) (value.Fragment fragment) }
    ensures { node_in (seen arena.now).held result ≡ spread_body (fragment_body (kind_at (seen arena.now) fragment) (children_at (seen arena.now) fragment)) }
{
    let parts = Parts::Items(items_of(arena, fragment));
    match kind_of(arena, fragment) {
        ItemKind::Pair => Node::Map(parts),
        ItemKind::Element => Node::List(parts),
        ItemKind::Document => Node::List(parts),
    }
}
