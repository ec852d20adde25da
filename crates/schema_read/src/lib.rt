//! Reads the type of data values that a schema document gives, over an arena.
//!
//! `read_schema` gives exactly the type that the definitions give for the document, or refuses as they do, at the same place and with the same
//! steps, which only the conversion of a note's argument takes. A map's default is made from those of its keys, so the time grows as
//! the length of all defaults.
#![tactic(auto)]

mod example;
mod item;
mod notes;
mod types;

pub use item::read_schema;
