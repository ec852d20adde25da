//! How the files of a run load one another.
//!
//! `run_at` runs the file of a place among the programs of a run. It runs the files that it loads first, in the order of its load statements,
//! each file at most once: what those that ended gave stays in `Modules` from one run to the next. Files that wait for those that they load
//! stand in a list, so that no chain of loads, however long, costs the machine's stack. Its clause says that the file runs as the units of
//! a request do that load one another, with modules that answer what it asks.
#![tactic(auto)]

mod given;
mod host;
mod looking;
mod programs;
mod running;
mod statements;
mod waiting;

pub use given::{Given, Modules};
pub use programs::Program;
pub use running::run_at;
