//! The methods of texts, and `%` with a text at the left, over the arena.
//!
//! `text_method` gives what a method answers for a text and its arguments. All but `format` stand in one table: which method it is,
//! what it takes and as what each argument is read. The answer, each refusal and the steps that are left are the definition's; a
//! refusal of a kind comes before the steps, and the steps are taken before a text is made that is larger than what was there.
//!
//! `format` and `text_percent` fill a text with values; their faults come in the text's order, and their cost is taken of the whole
//! text at its end. `pay_operation` takes the steps of an operation that has no cost of its own.
#![tactic(auto)]

mod answers;
mod by_name;
mod costs;
mod fields;
mod format;
mod kinds;
mod method;
mod percent;
mod rows;
mod searches;
mod table;

pub use costs::{Count, pay_operation};
pub use format::named_value;
pub use kinds::argument;
pub use method::text_method;
pub use percent::text_percent;
pub use searches::place_of;
pub use table::has_method;
