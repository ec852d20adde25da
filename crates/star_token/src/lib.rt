//! The text of code, cut into tokens.
//!
//! `tokens` cuts the code of comments and `file_tokens` that of a file, whose lines hold comments themselves: both give exactly the
//! tokens that the definition cuts the text into, each with its span and line, or the fault of its first piece that is no token, at
//! that piece's line (`cut`). The last token is the text's end (`ended`).
#![tactic(auto)]

mod found;
mod front;
mod lexer;
mod marks;
mod numbers;
mod texts;
mod words;

pub use found::Tokens;
pub use lexer::{file_tokens, tokens};
