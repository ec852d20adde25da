//! Integers of 128 bits: what operators give for two, and the numbers of ranges.
//!
//! Each answer is exactly the definition's, which is over all integers: the quotient is rounded down, the remainder has the
//! divisor's sign, `>>` rounds down, and what has more than 128 bits is `IntOverflow`. A range is never made as a list.
#![tactic(auto)]

mod integers;
mod operators;
mod ranges;

pub use integers::{between, negated, turned};
pub use operators::IntegerOp;
pub use ranges::{in_range, number_at, range_count};
