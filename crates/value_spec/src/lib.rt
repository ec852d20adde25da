//! The definitions of values as plain data: what code computes, the objects of a store and the acts on them, integers, keys,
//! members, and computations with the steps that they take. They stand in `specs/`.
#![tactic(auto)]
