//! Scalars in quotes at a place in a text, and the folding of lines. `read_quote` gives the definition's string
//! from an opening quote and the place behind the closing one (`yaml_spec/specs/Quotes`), `quote_on_line` the
//! string that closes on its line; `fold` and `Folded` fold lines at once and line by line (`specs/Folding`).
#![tactic(auto)]

mod escapes;
mod folding;
mod quote;
mod scan;

pub use folding::{Folded, fold};
pub use quote::{quote_on_line, read_quote};
