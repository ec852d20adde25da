//! Sets of keys, in which the keys of a map are looked up.
#![tactic(auto)]

mod seen;

pub use seen::Seen;
