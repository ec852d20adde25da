// Items one after another, and what the comments between them say.

use notes_read::Comment;
use star_tree::ItemKind;
use ytt_base::tree::{Key, Tree};

/// What is written in an item: a scalar, or a map or a list, whose items follow.
#[derive(Drop)]
pub enum Written {
    Scalar(Tree),
    Map,
    List,
}

/// An item as it begins.
#[derive(Drop)]
pub struct Start {
    /// How many items are around it: 0 for a document.
    pub level: usize,
    pub kind: ItemKind,
    pub line: u32,
    /// The key of a pair. Documents and elements have none.
    pub key: Option<Key>,
    pub written: Written,
}

/// The item on whose line a comment stands.
#[derive(Clone, Copy)]
pub struct Owner {
    pub level: usize,
    pub kind: ItemKind,
    /// Whether a map or a list is written in it.
    pub is_collection: bool,
}

/// One of the rows of a template's text.
#[derive(Drop)]
pub enum Row {
    /// An item begins.
    Begins(Start),
    /// What is said on the line of an item, to which it belongs: the item's level and kind, whether a map or a list is written in it,
    /// and the line.
    Beside(usize, ItemKind, bool, u32, Comment),
    /// What is said on a line of its own, from this line on.
    Says(u32, Comment),
}

/// Rows in text order.
pub type Rows = Vec<Row>;
