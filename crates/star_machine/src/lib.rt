//! The machine of the grammar of code: what is still to be read, what was read, and what a token makes of both.
//!
//! `step` takes one token, or says that it may not stand here, and `is_low` says whether a text that goes on so may be no higher
//! than an expression may be, mostly by what `step` keeps in a `Weight`. The guards, which say what the table alone does not,
//! stand in `star_guards`.
#![tactic(auto)]

mod growth;
mod machine;
mod pending;
mod weight;

pub use machine::{Machine, step};
pub use pending::{Item, Pending};
pub use weight::{Weight, is_low};
