//! JSON as the text of a value, and the value of a JSON text, over an arena.
//!
//! `encode` gives exactly the text that the definitions say a value is, or their refusal, and takes exactly their steps; `decode` gives the
//! fresh value of a text, or its refusal. How JSON is read and written is the kit's `serde_json`. `give_tree` gives a fresh value of any tree
//! that a text stands for, after the cost of both.
#![tactic(auto)]

mod built;
mod decoding;
mod encoding;
mod given;
mod list;
mod object;
mod read;
mod scalars;
mod trees;
mod values;

pub use decoding::decode;
pub use encoding::encode;
pub use given::give_tree;
