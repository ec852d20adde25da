//! Indexes and slices of the values of an arena.
//!
//! `index` and `slice` give exactly what the definitions say, refuse exactly as they refuse, and take exactly their steps: a place
//! that isn't there is `IndexRange`, a key that isn't there is `KeyMissing` with the key's text, and a cut through a character
//! is `CutsCharacter`. `set_index` changes exactly what the definitions change, and refuses first what can't be changed. `append`,
//! `push_quoted` and `push_integer` put what a key's text is made of behind a text.
#![tactic(auto)]

mod changes;
mod fragments;
mod indexes;
mod key_text;
mod keys;
mod places;
mod slices;
mod texts;

pub use changes::set_index;
pub use indexes::index;
pub use key_text::{Shown, closed, push_integer, push_quoted};
pub use keys::missing;
pub use slices::slice;
pub use texts::append;
