//! Members in the order of their keys: what `sorted`, `min`, `max` and `dir` give of them.
//!
//! `in_order` sorts by the kit's stable sort, which gives what the definition's insertion gives; `choose` takes the kinds and the sizes
//! of the keys and the steps before it.
#![tactic(auto)]

mod order;
mod wanted;

pub use order::in_order;
pub use wanted::{Wanted, choose};
