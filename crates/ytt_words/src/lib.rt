//! The words of the command line: what they ask for, or which of them is wrong.
//!
//! `read_words` gives exactly the request that the words spell, or the number of the first word at which no request goes on; want
//! of memory tells nothing of the words. It has two clauses: what is asked by the definition's walk over the words (`Asks`), and by the spelling of requests (`AsksFor`).
#![tactic(auto)]

mod words;

pub use words::{Budget, Command, CompileRequest, Request, WordsStop, read_words};
