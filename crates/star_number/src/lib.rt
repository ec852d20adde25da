//! Code with the numbers of its functions: each lambda gets its own, in text order.
//!
//! Each call gives code that equals what it is given but for the numbers of its lambdas, which begin with `next`, and leaves the number
//! behind them in `next` (`Numbers`). It gives a copy, but `number_owned` what it was given, where no lambda is seen in it. `take` gives a
//! `def` its number.
#![tactic(auto)]

mod exprs;
mod next;
mod owned;
mod statements;

pub use exprs::{number_boxed, number_exprs, number_params};
pub use next::take;
pub use owned::number_owned;
pub use statements::number_simple;
