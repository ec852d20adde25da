//! The definitions of the passes over a template's documents, and of what of a template isn't built yet. They stand in `specs/`, apart from
//! those of templates, since they change with each part that is built.
//!
//! Text templates change nothing of what isn't built (`proofs/TextsUnbuilt`).
#![tactic(auto)]
