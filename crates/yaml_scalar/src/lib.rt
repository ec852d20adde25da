//! Scalars in one place: what a plain one is and its value, one in quotes and a block scalar by the position where
//! it begins, lines folded, and the text of a key. Each call has one clause, by the definition of its name.
#![tactic(auto)]

mod block;
mod position;
mod quoted;

pub use block::read_block;
pub use position::Quoted;
pub use quoted::read_quoted;
pub use yaml_kinds::{ScalarKind, plain_kind, type_plain};
pub use yaml_quotes::fold;
pub use yaml_styles::key_text;
