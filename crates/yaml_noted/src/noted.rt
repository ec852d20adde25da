// Noted documents: trees with a place for each item and with the comments that belong to it.

use sqlite_items::Items;
use ytt_base::fault::Place;
use ytt_base::text::Text;
use ytt_base::tree::{Key, Tree};

/// A comment of a text.
#[derive(Drop)]
pub struct RawComment {
    /// Its line, from 1.
    pub line: u32,
    /// Whether nothing but white space stands before it on its line.
    pub own_line: bool,
    /// All of it, from its `#` on to its line's end.
    pub text: Text,
}

/// Comments in the order of the text.
pub type Comments = Items<RawComment>;

/// What an item holds.
#[cycle(noted)]
#[derive(Drop)]
pub enum Content {
    /// A scalar, which is no list and no map.
    Scalar(Tree),
    /// The pairs of a map, each with its key.
    Map(NotedItems),
    /// The elements of a list.
    List(NotedItems),
}

/// A document, a pair of a map, or an element of a list.
#[cycle(noted)]
#[derive(Drop)]
pub struct NotedItem {
    /// Its file, and the line on which it begins.
    pub place: Place,
    /// The key of a pair. Documents and elements have none.
    pub key: Option<Key>,
    /// The comments that stand before it and behind the item before it.
    pub before: Comments,
    /// The comment on its line.
    pub trailing: Option<RawComment>,
    /// Whether it stands in brackets.
    pub flow: bool,
    pub content: Content,
}

/// Items one after another.
pub type NotedItems = Items<NotedItem>;

/// The documents of a text.
#[derive(Drop)]
pub struct NotedDocs {
    pub items: NotedItems,
    /// The comments behind the last item.
    pub after: Comments,
}
