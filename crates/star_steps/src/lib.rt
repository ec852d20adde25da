//! What all operations over an arena share: the steps that they take, and their refusals.
//!
//! `specs/Meets` says how what a call returned stands to how a computation of the definitions ends: the state is that of the
//! arena's objects with the steps that are left.
#![tactic(auto)]

mod steps;

pub use steps::{Depth, Given, Paid, Told, pay, refusal, stop_at, texts_equal, tuple_members};
