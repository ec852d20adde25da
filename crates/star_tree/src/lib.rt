//! Syntax trees of Starlark code, and programs.
//!
//! `Expr::copy`, `copy_args` and the calls of `copies` give an equal value; `names` has the names of the language. `specs/View` and `specs/Whole` lead to the plain data that definitions speak of.
#![tactic(auto)]

pub mod code;
pub mod copies;
pub mod names;
mod program;

pub use program::{Holds, ItemKind};
