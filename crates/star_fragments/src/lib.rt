//! Fragments, which are items that a function built: whether two are equal, and the values of their members.
//!
//! A fragment is never turned into a tree: its items, and the trees in them, are walked as they stand, so the work of a call stays
//! within the steps that it takes.
#![tactic(auto)]

mod copies;
mod equality;
mod fragment;
mod fresh;
mod keys;
mod members;
mod node;
mod sizes;

pub use copies::{copy_args, copy_item, copy_items};
pub use equality::fragments_equal;
pub use fragment::kind_of;
pub use fresh::{dict_of, fresh_value, key_value};
pub use keys::place_of_key;
pub use members::{fragment_length, member_value};
pub use sizes::pay_items;
