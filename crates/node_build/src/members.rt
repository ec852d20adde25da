// The items of a collection that is being built, with their keys.
ghost use Rattle.node_build.specs.Positions.{AreKnown};

use object_arena::{Built, BuiltItem};
use sqlite_items::Items;
use std::alloc::Global;
use yaml_keys::Seen;

/// Items in their order, and a set that has each of their keys.
#[derive(Drop)]
pub(crate) struct Members {
    pub items: Vec<BuiltItem>,
    pub keys: Seen,
    ghost known: { AreKnown keys items.items },
}

impl Members {
    ghost use Rattle.std.specs.Prelude.{◌≡◌, []};

    /// No items. It takes no memory.
    pub fn new(alloc: Global) -> Members
        ensures { result.items.items ≡ [] }
    {
        Members {
            items: Vec::new(alloc),
            keys: Seen::new(),
        }
    }

    /// The items.
    pub fn into_items(self) -> Built
        ensures { result ≡ self.items.items }
    {
        Items::from_vec(self.items)
    }
}
