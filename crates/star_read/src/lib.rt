//! Reading the tokens of code into syntax trees, by the table of the grammar.
//!
//! Each reader gives what stands in the tokens by the grammar, or the fault of the least token with which no text goes on
//! (`read_expr`, `read_args`, `read_simple`, `read_header`, `read_file`). Tokens have at most one tree (`one_tree`); those that end
//! are read or refused (`each_is_read`), for one reason (`one_refusal`), and never both (`never_both`).
#![tactic(auto)]

mod laws;
mod reader;
mod standing;

pub use laws::{each_is_read, never_both, one_refusal, one_tree};
pub use reader::{read_args, read_expr, read_file, read_header, read_simple};
