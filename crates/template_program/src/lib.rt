//! From a whole template to its program.
//!
//! `compile` gives exactly the definition's program of the template with its text templates as expressions, for the template's file
//! (`file`), with the variable of each of its names and the number of each of its functions, where all of it is built. It refuses exactly
//! the first fault of its text templates, whichever reader reads code as the grammar says, then the first name that neither the template
//! nor the language binds, and behind that the first place at the least line that isn't built. The program runs as the template with these
//! numbers is built (`program`).
#![tactic(auto)]

mod holds;
mod parts;
mod passes;
mod program;
mod texts;
mod unbuilt;

pub use passes::compile;
