//! What operators give for the values of an arena: the whole table but for `%` with a text at its left, which formats and
//! stands in `star_builtins`; here it is `NotBuilt`.
//!
//! `unary`, `binary`, `augment`, `compare`, `equal`, `index`, `slice`, `set_index` and `truth` give exactly what the definitions say, refuse
//! exactly as they refuse, leave the store as they leave it, and take exactly their steps: a refusal of the kinds comes before
//! the steps, and the steps before the effect. What was owned stays owned; where memory is wanting nothing more is said. `members_of`
//! and `member_count` give the members of a value and how many they are.
#![tactic(auto)]

mod in_place;
mod integers;
mod membership;
mod products;
mod rows;
mod sums;
mod truths;
mod unions;

pub use in_place::members_of;
pub use rows::{augment, binary, compare, equal, index, set_index, slice, unary};
pub use truths::{member_count, truth};
