//! The arena: one owner of all texts, lists, dicts, tuples, ranges, structs, boxes, functions, natives, modules and fragments.
//!
//! Contracts see an arena by one function, `seen`: what its held things are, by their places, and the store of the definitions. A
//! call does to the store what the definitions' act does, refuses exactly as it refuses, frozen before walked before all else, and
//! keeps every reference that was owned, its kind and what it is seen as (`Grows`). Where it refuses, or memory is wanting,
//! the arena is as it was. Texts of the same bytes and tuples of the same members stand once, so a key is found by hashing what
//! a value is made of, which takes no memory.
#![tactic(auto)]

mod arena;
mod dicts;
mod lists;
mod loops;
mod makers;
mod pairs;
mod readers;

pub use arena::Arena;
pub use loops::Mark;
pub use pairs::Pairs;
pub use readers::Shape;
pub use star_values::{
    Answerer, ArenaStop, Boxes, Built, BuiltItem, BuiltNote, BuiltNotes, BuiltValue, CallArgs, Cut,
    Function, ItemKind, Lent, NamedBox, NamedValue, NamedValues, Ref, Reply, Sort, Value, Values,
    Work,
};
