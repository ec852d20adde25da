//! Logical lines: what begins an entry on a line, and the value behind it.
//!
//! `row_at` gives exactly the definition's logical line that begins with a line (`row`), whatever comments stand before it;
//! `row_value` exactly the definition's value of it, with its comments and the last line that it takes, or exactly its fault.
//! `has_value` says whether it has one.
#![tactic(auto)]

mod heads;
mod keys;
mod row;
mod rows;
mod values;

pub use keys::MAX_DEPTH;
pub use row::{Head, Heads, Mark, Row, has_value};
pub use rows::{open_place_of, row_at, row_value};
pub use values::{Value, read_value};
