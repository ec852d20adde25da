//! Flow collections, over any number of lines.
//!
//! `read_flow` gives exactly the definition's node in brackets, the comments in it that no item of it has, and the place behind
//! it, or exactly its first fault (`node`), for each number of collections that may stand in one another.
#![tactic(auto)]

mod flow;
mod key;
mod looks;
mod member;
mod scalar;
mod token;

pub use flow::read_flow;
