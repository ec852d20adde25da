//! What parts of nodes build, over an arena, apart from what runs code.
//!
//! A `Builder` has the open nodes. Each call does exactly what the definitions say of its part, or refuses as they do, and takes
//! exactly their steps but for that of a start, which its caller takes. After each refusal, want of memory included, the open nodes
//! are as they were. What the notes and items have of values is seen by what the arena holds, and stays owned as it grows.
//! `to_tree` is the tree of a value, and `documents_of` the trees of documents that were built. Keys of an open map are looked up in a set, so the time grows as the length.
#![tactic(auto)]

mod add;
mod builder;
mod documents;
mod end;
mod fill;
mod list;
mod members;
mod node;
mod place;
mod take;

pub use builder::Builder;
pub use documents::documents_of;
pub use take::to_tree;
