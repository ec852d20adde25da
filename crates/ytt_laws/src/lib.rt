//! Laws that several crates take: chains of outcomes, what holds of an outcome's value, and lists that are turned into trees
//! and pairs one member after another. They stand in `proofs/`, over plain variables. What holds of a value, if there is one,
//! is said by the standard library's `IfOk`.
#![tactic(auto)]
