//! Reading a text into noted documents and into trees.
//!
//! For every text of fewer than 2^32 bytes `read_noted` gives exactly the definition's noted documents, or exactly its first
//! fault (`Read`), and `read_plain` exactly its documents, or exactly its first fault (`read_trees`). Each has this one clause.
//! The code goes over a document's lines once, with a stack of open blocks; the definition cuts them top down.
#![tactic(auto)]

mod between;
mod closing;
mod documents;
mod markers;
mod opening;
mod pass;
mod read;
mod segments;
mod state;
mod stepping;

pub use read::{read_noted, read_plain};
pub use yaml_noted::{Comments, Content, NotedDocs, NotedItem, NotedItems, RawComment};
pub use yaml_trees::{has_code, plain_trees};
