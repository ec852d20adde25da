//! The text that a value of an arena is by `repr` and by `str`.
//!
//! `push_repr` and `push_str` put exactly the definitions' text behind what stands in a string, refuse exactly as they refuse, and
//! take exactly their steps, each before what it pays for is shown: `TooDeep` where more than 100 collections stand in one
//! another, so a list that holds itself ends, and `Steps` where fewer are left than the value takes. `repr_of` and `str_of`
//! give the text by itself. None changes the arena.
#![tactic(auto)]

mod members;
mod texts;
mod values;

pub use texts::{repr_of, str_of};
pub use values::{push_repr, push_str};
