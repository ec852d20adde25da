//! Where a text occurs in another, what a text is cut into there, and texts in one.
//!
//! Each call gives exactly what the definition of its name gives of the bytes: the places of a text (`first_between`,
//! `last_between`, `count_between`), the text around one (`cut_first`, `cut_last`), the pieces between them (`pieces`, `pieces_back`,
//! `pieces_between`), the characters, the edges of a text, and texts joined. A search takes time that grows with the two texts.
#![tactic(auto)]

mod between;
mod bounds;
mod character;
mod cuts;
mod cutting;
mod edges;
mod joins;
mod places;

pub use between::{count_between, first_between, last_between};
pub use character::characters;
pub use cuts::{cut_first, cut_last};
pub use cutting::{pieces, pieces_back, pieces_between};
pub use edges::{begins_with, ends_with, without_prefix, without_suffix};
pub use joins::{joined, joined_length};
