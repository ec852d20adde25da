// Open nodes.

use crate::members::Members;
use object_arena::{Built, BuiltNotes, BuiltValue};
use sqlite_items::Items;
use star_tree::{Holds, ItemKind};
use std::alloc::Global;
use ytt_base::fault::Place;
use ytt_base::tree::{Key, Tree};

/// What a node's value gave: one, or items in its place.
#[derive(Drop)]
pub(crate) enum Filled {
    One(BuiltValue),
    Many(Built),
}

/// A node that is not closed yet: what came of it so far.
#[derive(Drop)]
pub(crate) struct OpenNode {
    pub place: Place,
    pub kind: ItemKind,
    pub holds: Holds,
    pub notes: BuiltNotes,
    pub key: Option<Key>,
    pub value: Filled,
    pub children: Members,
}

impl OpenNode {
    ghost use Rattle.std.specs.Prelude.{◌≡◌, ℕ, List};
    ghost use Rattle.node_build.specs.View.{OwnsNode, node_at};
    ghost use Rattle.star_tree.specs.View.{holds_of, item_kind_of};
    ghost use Rattle.star_values.specs.View.{View};
    ghost use Rattle.template_meaning.specs.Run.{opened};
    ghost use Rattle.value_spec.specs.Values as plain;

    /// A node of which nothing came yet. It takes no memory.
    pub fn new(alloc: Global, place: Place, kind: ItemKind, holds: Holds) -> OpenNode
        ensures opened { (held : List plain.Value) (level : ℕ) → node_at held level result ≡ opened place (item_kind_of kind) (holds_of holds) level }
        ensures owned { (a : View) → OwnsNode a result }
    {
        OpenNode {
            place,
            kind,
            holds,
            notes: Items::new(alloc),
            key: None,
            value: Filled::One(BuiltValue::One(Tree::Null)),
            children: Members::new(alloc),
        }
    }

    /// Its children.
    pub fn into_items(self) -> Built
        ensures { result ≡ self.children.items.items }
    {
        self.children.into_items()
    }
}
