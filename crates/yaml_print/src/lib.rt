//! Printing: the one text of documents, written to a sink through a buffer, measured, or given as a value.
//!
//! `print_to` appends exactly the definition's text of the documents, or on failure a prefix of it (`bytes`), for every sink and
//! all trees, through a buffer of 4,096 bytes, without taking memory; `SinkFailed` comes only where the count rose (`cause`).
//! Where no map has a key twice, no document is null and none nests more than 100 collections, that text reads back as those
//! documents, and as no others (`reads_back`). `print_text` gives the same text as a value, or want of memory alone;
//! `text_length` that text's length, or 2^64 - 1 past that, without taking memory.
#![tactic(auto)]

mod blocks;
mod double_quotes;
mod indent;
mod length;
mod literal;
mod literal_fit;
mod print;
mod printer;
mod put;
mod scalar;
mod text;

pub use length::text_length;
pub use print::print_to;
pub use text::print_text;
