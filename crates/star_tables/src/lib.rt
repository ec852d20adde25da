//! The table of the grammar of code, as the reader goes by it.
#![tactic(auto)]

mod body;
mod effect;
mod kinds;
mod levels;
mod predict;

pub use body::{action_of, symbols_of};
pub use effect::{effect_of, given, least, takes};
pub use kinds::{kind_of, name_in};
pub use predict::choice_at;
