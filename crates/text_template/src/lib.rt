//! The pieces of a text template.
//!
//! `read_text` gives exactly the pieces that the definition cuts a text into, or exactly its first fault, whichever reader reads code as
//! the grammar says (`pieces`). `is_templated` says whether a text has a mark, without which it stays as it is written.
#![tactic(auto)]

mod cut;
mod pieces;

pub use cut::is_templated;
pub use pieces::read_text;
