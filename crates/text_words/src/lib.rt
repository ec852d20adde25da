//! ASCII classes and letters of a text, its words, its lines, and what is stripped off its ends.
//!
//! Each call gives exactly what the definition gives (`text_spec/specs/Classes` and `text_spec/specs/Cutting`), for every text:
//! `is_all`, `is_lower` and `is_upper` say whether its bytes are of a class, `lowered`, `uppered` and `capitalized` give it with
//! its letters changed, `words`, `words_back` and `lines` give its parts in their order, each as a part of the text itself,
//! and `stripped_front` and `stripped_back` give what is left of it without the characters of a set. The only error is want of
//! memory.
#![tactic(auto)]

mod cases;
mod character_set;
mod class;
mod edges;
mod line_cuts;
mod runs;
mod strips;
mod word_cuts;

pub use cases::{capitalized, lowered, uppered};
pub use character_set::CharacterSet;
pub use class::{Class, is_all, is_lower, is_upper};
pub use line_cuts::lines;
pub use strips::{stripped_back, stripped_front};
pub use word_cuts::{words, words_back};
