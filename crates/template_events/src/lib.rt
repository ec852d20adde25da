//! The rows of a template's text: its items and what its comments say.
//!
//! `read_events` gives the events of the documents by levels, with the keys of the items and what is written in them, or exactly the first
//! fault of a comment, whichever reader reads code as the grammar says (`events`). The comments come in the order of their lines.
#![tactic(auto)]

mod event;
mod flat;
mod gather;
mod hear;
mod kept;
mod longer;

pub use event::{Row, Rows, Start, Written};
pub use flat::read_events;
