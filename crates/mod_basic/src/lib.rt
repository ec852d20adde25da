//! The natives of the modules struct, assert and template over the arena.
//!
//! `basic_named` gives the native of a name; `basic_call` what one replies for what it holds and for its arguments; `try_resumed` what
//! `assert.try_to` replies once the call that it asked for has come to a value or a fault. The reply, each refusal, the objects and the
//! steps that are left are exactly the definition's.
#![tactic(auto)]

mod asserts;
mod calls;
mod checks;
mod costs;
mod fields;
mod replacing;
mod structs;
mod table;
mod tries;
mod walks;

pub use calls::basic_call;
pub use table::{Basic, basic_named};
pub use tries::try_resumed;
