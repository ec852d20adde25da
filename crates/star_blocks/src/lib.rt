//! The blocks of a program: code whose statements hold the blocks that they open.
//!
//! `nest` reads them of statements in one row. Its clause says that they stand for the blocks of the
//! definitions, in a file of any number, and that there are none where some block isn't closed where it
//! should be. It needs no stack of the machine, however deep blocks nest. `specs/Nested` leads to the
//! plain blocks of the definitions.
#![tactic(auto)]

mod block;
mod level;
mod nesting;

pub use block::{Arm, Block, Op, Statement};
pub use nesting::nest;
