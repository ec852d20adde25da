//! The checks of placing: the first fault of a template's rows, and to which collections go their statements, blocks and branches.
//!
//! `first_fault` gives exactly the fault that placing by levels finds first (`fault`), and where there is none the level of what each
//! row puts between items (`levels`). `stop_at` makes a fault that was found into the stop of its caller.
#![tactic(auto)]

mod ahead;
mod blocks;
mod faults;
mod first;
mod statements;
mod walk;
mod wrong;

pub use first::{Checked, first_fault};
pub use wrong::{Wrong, stop_at};
