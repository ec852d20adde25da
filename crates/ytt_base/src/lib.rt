//! Texts, trees, faults and the line that reports a fault: what every other crate speaks of.
//!
//! `Tree::copy`, `Key::copy`, `Text::copy` and `Text::of` give an equal value. `Tree::at` gives the part that the steps reach, or
//! `None` where they reach none; `Tree::depth` the depth, or 2^32 - 1 where that is less. `Key::is_same` is the definition's
//! equality. `push_pair` adds the pair, or leaves the pairs as they were. `fault_text` is the line of the fault, for all kinds.
#![tactic(auto)]

pub mod fault;
pub mod line;
pub mod report;
pub mod text;
pub mod tree;
