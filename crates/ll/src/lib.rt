//! Grammars as data, and the one reader of them all. The definitions stand in `specs/`, the theorem in `proofs/`.
#![tactic(auto)]

mod shapes;

pub use shapes::{Effect, Flag, Shape, Shapes};
