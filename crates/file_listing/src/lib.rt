//! The listing of one file: what the command `compile` prints.
//!
//! `compile_file` reads the file at a path, and gives exactly the listing of its program, or exactly its first fault. The program is one of
//! the items that the file means, in which no word leaves a node, so that it runs as they are built (`listed`).
#![tactic(auto)]

mod file;
mod names;

pub use file::compile_file;
