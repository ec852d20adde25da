// Open blocks.
ghost use Rattle.std.specs.Prelude.{◌≤◌};

use sqlite_items::Items;
use yaml_noted::{Comments, Content, NotedItems, RawComment};
use ytt_base::fault::Place;
use ytt_base::tree::Key;

/// A content, and the comment on the line of the document or entry that has it.
#[derive(Drop)]
pub struct Found {
    pub content: Content,
    pub trailing: Option<RawComment>,
}

/// What an entry of a block has besides its content.
#[derive(Drop)]
pub struct Note {
    /// Its file, and the line on which it begins.
    pub place: Place,
    pub key: Option<Key>,
    /// The comments that stand before it.
    pub before: Comments,
    /// The comment on its line.
    pub trailing: Option<RawComment>,
}

/// An open block.
#[derive(Drop)]
pub struct Frame {
    /// How many collections may nest in it.
    pub left: u32,
    /// The spaces before each of its entries.
    pub indent: usize,
    pub is_list: bool,
    /// The items before its open entry.
    pub done: NotedItems,
    /// What its open entry has so far.
    pub note: Note,
    ghost shallow: { left ≤ 100 },
}

/// Open blocks, the outermost first.
pub type Frames = Items<Frame>;

/// How far a row reaches.
#[derive(Drop)]
pub struct Extent {
    /// How many further lines it takes.
    pub skip: u32,
    /// The comments that it leaves to the next item.
    pub loose: Comments,
}

/// What stands behind the last head of a row.
#[derive(Drop)]
pub struct Started {
    pub trailing: Option<RawComment>,
    pub hole: Option<Found>,
    pub extent: Extent,
}

/// Blocks that a row has opened, and what the open entry of the last of them has.
#[derive(Drop)]
pub struct Opened {
    pub frames: Frames,
    pub hole: Option<Found>,
    pub extent: Extent,
}

/// An entry that has begun, with the blocks that are opened in it.
#[derive(Drop)]
pub struct Begun {
    pub note: Note,
    pub inner: Opened,
}
