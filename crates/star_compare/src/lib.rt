//! Equality, order and sizes of the values of an arena.
//!
//! Each call takes exactly the steps of the definition and refuses exactly as it refuses: `TooDeep` where more than 100
//! collections stand in one another, `Steps` where fewer are left than it takes, and `ValueKind` where the kinds have no
//! order, or a value is no key. `order_of` tells which of two values comes first, without steps. `key_offence` tells why a value is no key, and takes no steps. None changes the arena. `bounds`, `fields` and `name_of` give what a range, a
//! struct, and a module or what can be called hold.
#![tactic(auto)]

mod equality;
mod offences;
mod order;
mod pairs;
mod sizes;

pub use equality::{Bounds, among, bounds, equal, fields, name_of};
pub use offences::key_offence;
pub use order::{comparable, compare, order_of};
pub use pairs::{field_under, pair_count, value_under};
pub use sizes::{key_size, order_size};
