//! The lines of a text, without their ends, and the characters that may stand in them.
//!
//! `cut_lines` gives exactly the definition's lines, each with its place and text (`lines`) and its number of leading spaces
//! (`indents`), or exactly its fault, for every text of fewer than 2^32 bytes. `is_printable` is the definition's.
#![tactic(auto)]

mod characters;
mod ends;
mod lines;

pub use characters::is_printable;
pub use lines::cut_lines;
