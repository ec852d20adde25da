//! The language's own functions over the arena.
//!
//! `attribute` gives a field, or a method, which holds what it is of; `own_function` the function of a name; `own_call` what a function
//! or a method gives for its arguments, or what `sorted`, `min` and `max` ask of a key function: each member's key, which `star_sorting`
//! then puts in order; `binary` and `augment` the whole table of operators. `dict` and `update` take their arguments as they are, and
//! read the pairs of a value once. The answer, each refusal, the objects and the steps that are left are exactly the definition's.
#![tactic(auto)]

mod asked;
mod attributes;
mod calls;
mod changes;
mod dicts;
mod field_names;
mod functions;
mod integers;
mod lists;
mod members;
mod numbers;
mod operators;
mod pairs;
mod sequences;
mod table;

pub use asked::Asked;
pub use attributes::attribute;
pub use calls::{own_call, own_function};
pub use operators::{augment, binary};
