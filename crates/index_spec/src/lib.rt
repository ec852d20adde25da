//! The definitions of indexes and slices as plain data: what `x[i]` and `x[a:b:c]` give for every kind of value, their steps
//! and their faults, and the text of a key that isn't there. They stand in `specs/`.
#![tactic(auto)]
