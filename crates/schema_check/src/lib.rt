//! Types of data values: where a tree isn't of its type, and what is filled in where it is.
//!
//! `first_offence` gives the node and the type of the first offence exactly as the definition says, or `None` where the tree is of
//! the type, and takes no memory; `offence_path` gives where that one stands. `fill` gives exactly the definition's tree, with the defaults of
//! the keys that are missing. None of them has a condition. Each takes time linear in the trees that it is given and makes: a key is found
//! in its map's type by a table.
#![tactic(auto)]

mod filling;
mod find;
mod names;
mod path;
mod types;
mod wants;

pub use filling::fill;
pub use find::first_offence;
pub use path::{Offence, offence_path};
pub use types::{Schema, TypeKind, TypePairs};
