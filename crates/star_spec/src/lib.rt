//! The definitions of what Starlark code means: evaluating, names, blocks, and calls. They stand in `specs/`.
#![tactic(auto)]
