//! What begins with a row: the entry at its last head, with its key, its comments and its content, and how far it reaches.
//!
//! `begin_last` gives exactly the definition's entry, or exactly its first fault: its key is refused before its content
//! (`begin_last` of `specs/Heads`). The types are those of blocks that are open while a document is read.
#![tactic(auto)]

mod entries;
mod frames;

pub use entries::{begin_last, found_by, row_comment};
pub use frames::{Begun, Extent, Found, Frame, Frames, Note, Opened, Started};
