//! The definition of the command `compile`: the items of one file, whose program is listed. It stands in `specs/`.
#![tactic(auto)]
