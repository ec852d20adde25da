//! The top call: all that the program does. Its clauses stand beside `ytt_main`; docs/faults.md retells them.
//!
//! `answer_words` finds what is to be written, with its cause (`Found`), and writes nothing; `write_answer` writes that alone
//! (`Written`). What both give together is what `ytt_main` tells.
#![tactic(auto)]

mod answer;
mod run;
mod written;

pub use run::{Status, ytt_main};
