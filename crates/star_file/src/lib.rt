//! A file of code, read: from its bytes to its program.
//!
//! `read_star_file` gives a program of exactly the items that the definition reads of the bytes, with the file's number, its blocks and the
//! names that it binds, or exactly the first fault of its passes (`program`). What the grammar reads of a file has closed blocks, of
//! statements alone (`read_files_are_code`). `nested` cuts a program with its names into its blocks.
#![tactic(auto)]

mod laws;
mod loads;
mod numbers;
mod passes;
mod program;
mod text;

pub use laws::read_files_are_code;
pub use program::{FileProgram, nested, read_star_file};
