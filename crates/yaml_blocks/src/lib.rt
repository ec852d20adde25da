//! Block scalars at a place in a text. `read_block_at` gives the definition's string from `|` or `>` and the place
//! behind it (`yaml_spec/specs/Blocks`); `read_lines` gives how many lines it has in place of the place.
#![tactic(auto)]

mod blocks;
mod blocktext;
mod header;
mod indent;

pub use blocks::{read_block_at, read_lines};
pub use header::{ends_header, header_rest};
pub use indent::least_under;
