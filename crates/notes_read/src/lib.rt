//! What the comments of a template say.
//!
//! `read_comment` gives exactly what the definition says of a comment, or exactly its first fault, whichever reader reads code as the
//! grammar says (`said`). `depth_of` counts the brackets that are open at the end of a comment's code, and `depth_behind_code` goes on with
//! a line of code (`depth`): they tell whether a comment goes on, and how many are open at its end then (`depths_tell`). Some reader reads
//! so (`a_code_reader_exists`), and any two read each text as the same (`code_readers_agree`).
#![tactic(auto)]

mod code;
mod comment;
mod laws;
mod notes;
mod reader;
mod words;

pub use comment::Comment;
pub use laws::{a_code_reader_exists, code_readers_agree, depths_tell};
pub use reader::{depth_behind_code, depth_of, read_comment};
