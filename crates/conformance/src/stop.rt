// Why an archive can't be run.

use std::alloc::{AllocError, AllocFailed};
use ytt_base::text::Memory;

#[derive(Clone, Copy)]
pub enum Stop {
    Memory,
    /// What is wrong in the archive, and the line, from 1.
    Form(u64, &'static str),
}

impl From<AllocError> for Stop {
    fn from(_: AllocError) -> Self {
        Stop::Memory
    }
}

impl<T: Drop> From<AllocFailed<T>> for Stop {
    fn from(_: AllocFailed<T>) -> Self {
        Stop::Memory
    }
}

impl From<Memory> for Stop {
    fn from(_: Memory) -> Self {
        Stop::Memory
    }
}
