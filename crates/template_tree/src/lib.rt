//! Placing: noted documents into the template of their file, with its statements and blocks where they stand.
//!
//! `place` gives exactly the definition's template of the documents, or exactly the first fault of their comments and then of their
//! placing, whichever reader reads code as the grammar says (`template`), in the documents' file (`file`). Of documents with keys on
//! pairs alone it is placed (`placed`). The items of a collection and of a block are held from the last to the first, as they are read, so
//! that the next one of the text is taken off the end.
#![tactic(auto)]

mod nest;
mod placing;
mod put;
mod slots;
mod tree;

pub use placing::place;
pub use tree::{TContent, TElif, TElifs, TElse, TItem, TItems, TNode, TNote, TNotes, Template};
