//! The listing of a program: one instruction a line.
//!
//! `listing` gives exactly the definition's text (`listing_spec/specs/Listing`), and its only error is want of memory.
#![tactic(auto)]

mod exprs;
mod program;
mod quoted;
mod statements;
mod texts;
mod words;

pub use program::listing;
