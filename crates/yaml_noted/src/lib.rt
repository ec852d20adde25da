//! Noted documents: trees with a place for each item and with the comments that belong to it.
//!
//! There is no code: the types, and the view from them to the plain data (`specs/View`).
#![tactic(auto)]

mod noted;

pub use noted::{Comments, Content, NotedDocs, NotedItem, NotedItems, RawComment};
