//! Values as a program keeps them, what they hold, and the changes of one object.
//!
//! A `Value` is Copy: what is larger than a few words stands in an arena, and the value says where. `Held` is what
//! never changes: texts, tuples, ranges and so on; an `Object` is a list, a dict, a box or a function, with its frozen mark and
//! the count of the loops that walk it. Each change of an object does what the definition's act on an object does, refuses
//! exactly as it refuses, frozen before walked before all else, and leaves the object as it was where it refuses or where
//! memory is wanting. `object_arena` keeps them all, and hands the types on.
#![tactic(auto)]

mod changes;
mod held;
mod lent;
mod object;
mod value;

pub use changes::{equal_values_are_one, put_under};
pub use held::{Answerer, Held, Numbered, Thing, Word};
pub use lent::Lent;
pub use object::{ArenaStop, Boxes, Contents, Function, NamedBox, Object};
pub use star_tree::ItemKind;
pub use value::{
    Built, BuiltItem, BuiltNote, BuiltNotes, BuiltValue, CallArgs, Cut, NamedValue, NamedValues,
    Ref, Reply, Sort, Value, Values, Work, value_at,
};
