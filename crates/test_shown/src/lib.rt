//! How tests show values as texts, and compare them with texts written by hand.
#![tactic(auto)]

mod differing;
mod faults;
mod shown;

pub use differing::Differing;
pub use faults::shown_stop;
pub use shown::{Shown, unfolded};
