//! The parameters of a head as they are read, one after another.
//!
//! A name that is read is asked whether a parameter has it, and a star whether one was read. `Parameters` answers by a set of the names
//! and by what it has noted, so the time that a head takes grows with its text. Contracts see it as the list of its parameters alone.
#![tactic(auto)]

mod parameters;

pub use parameters::Parameters;
