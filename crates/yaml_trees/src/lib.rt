//! What noted documents hold: whether a comment of theirs is code, and their trees without the notes.
//!
//! `plain_trees` gives exactly the definition's trees of noted documents, without the null ones, or KeyTwice exactly as it says.
//! `has_code` is true exactly where a comment begins with `#@`.
#![tactic(auto)]

mod code;
mod trees;
mod twice;

pub use code::has_code;
pub use trees::plain_trees;
