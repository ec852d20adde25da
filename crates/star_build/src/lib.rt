//! What the end of each alternative of the grammar of code makes of the parts that were read, and what a token makes of
//! them and of the blocks that are open. The definitions stand in `star_grammar`.
#![tactic(auto)]

mod added;
mod blocks;
mod ends;
mod made;
mod parts;
mod stated;
mod trees;
mod values;

pub use blocks::Blocks;
pub use ends::{build, put_token};
pub use parts::Parts;
pub use trees::{args_of, code_of, header_in};
pub use values::boxed_of;
