//! Plain scalars: where they begin, end and go on, as values and as keys.
//!
//! `start_fault` says exactly why no plain scalar begins at a text, if so; `split_plain` gives its part of a line and what stands
//! behind; `read_plain_key` the key by its form, or the fault that it is; `read_plain_scalar` exactly the definition's value over
//! its lines and the place behind it, or exactly its fault.
#![tactic(auto)]

mod ends;
mod further;
mod key;
mod lines;
mod starts;

pub use ends::split_plain;
pub use key::read_plain_key;
pub use lines::read_plain_scalar;
pub use starts::start_fault;
