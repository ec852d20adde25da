//! The text of code as data: tokens, the table of the grammar's alternatives, and what each builds; and operators by their
//! tokens. The definitions stand in `specs/`, that the table keeps its laws in `proofs/`.
#![tactic(auto)]

mod operators;
mod part;
mod start;
mod table;
mod token;

pub use operators::{augmented_of, operation, unary_of};
pub use part::{Block, Part};
pub use start::{Stand, Start};
pub use table::{Action, Added, Choice, Kind, Made, Opened, Rule, Stated, Symbol, Terminal};
pub use token::{Cursor, Form, Letter, Mark, Origin, Piece, Said, Token, TokenKind};
