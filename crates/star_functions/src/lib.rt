//! The functions of files by their numbers, so that a call finds its code without going through a file.
//!
//! `functions_of` goes through the block of each file once, in the order in which the definition looks for
//! a function, and keeps the first function with each number. Its clause says that `find` gives what the
//! definition finds in the first file with a number. Each function also has the names that its block binds
//! besides its parameters, each once, so that a call makes boxes for them without going through the block.
//! `specs/Numbered` has the functions of code in their order, `specs/View` leads to the plain code of the
//! definitions, `specs/Known` says which functions files have, and `specs/Table` finds one of them.
#![tactic(auto)]

mod blocks;
mod exprs;
mod function;
mod functions;
mod names;
mod programs;

pub use function::{Function, FunctionCode};
pub use functions::{Functions, functions_of};
pub use programs::FileBlock;
