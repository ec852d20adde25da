//! Places in a text, and what stands there: white space, marks, and the refusal of what is wrong there.
//!
//! What is left of a text without the white space at its start or end (`skip_white`, `trim_end`), its indent (`indent`), what
//! begins it (`is_gap`, `is_blank`, `starts_quote` and the like) and a refusal at a place (`refusal`) are the definitions'.
#![tactic(auto)]

mod cursor;
mod look;
mod refusals;
mod spaces;
mod white;

pub use cursor::Cursor;
pub use look::{
    first, is_blank, is_flow_indicator, is_gap, is_note, starts_block, starts_collection,
    starts_quote,
};
pub use refusals::refusal;
pub use spaces::indent;
pub use white::{behind, is_white, skip_white, trim_end};
