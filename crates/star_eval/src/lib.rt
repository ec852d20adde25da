//! What a program does: expressions, statements and blocks by one loop over a stack of frames, which calls itself on no part of the
//! program, so no nesting costs the machine's stack.
//!
//! `run_file` gives the documents and the globals that the block of a file means, or the fault that it ends with, in a `Session` of
//! objects and steps that goes on from one call to the next, and `call_function` what a value of the session gives that is called. The
//! functions of all files stand in one table that is lent to each run. Natives that aren't the language's own are a `Host`'s, of whom
//! the loop asks what they answer. Calls stand in frames too, also those that natives ask for, and code of one file may call functions
//! of another. Frames are seen as plain data (`specs/Waiting`), and each step
//! keeps what the machine stands for (`specs/Frames`), the host's answers being told in (`specs/Hosted`); the words that its contracts
//! speak in are in `specs/Seen`. What parts of nodes build is `node_build`'s.
#![tactic(auto)]

mod arguments;
mod assign;
mod calls;
mod comprehensions;
mod dicts;
mod eval;
mod file;
mod frame;
mod functions;
mod give;
mod host;
mod indexes;
mod looped;
mod machine;
mod names;
mod natives;
mod numbers;
mod outside;
mod parts;
mod run;
mod session;
mod source;
mod templates;
mod walk;
mod went;

pub use file::{FileResult, run_file};
pub use host::Host;
pub use outside::call_function;
pub use session::Session;
