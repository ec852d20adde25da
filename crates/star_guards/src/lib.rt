//! The guards of the grammar of code: what its table alone does not say, as targets, parameters, the blocks around, and heights.
//!
//! The clauses promise that each answer is the definition's in `star_grammar`: `allows` whether an alternative may begin after
//! what was read, `may_stand` whether a token may stand at a place, and `fits` whether an expression may be so high.
#![tactic(auto)]

mod guards;
mod height;

pub use guards::{allows, may_stand};
pub use height::{MAX_HEIGHT, fits};
