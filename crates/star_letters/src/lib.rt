//! The letters of a text of code: what stands in it for itself, escapes, and the bytes that each says.
#![tactic(auto)]

mod bytes;
mod letters;

pub use bytes::{before, behind, byte};
pub use letters::{letter_at, push_said};
