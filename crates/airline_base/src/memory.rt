//! Want of memory.
use std::alloc::{AllocError, AllocFailed};

/// The answer of a call whose only refusal is want of memory.
#[derive(Clone, Copy, Debug)]
pub struct Memory;

impl From<AllocError> for Memory {
    fn from(_e: AllocError) -> Memory {
        Memory
    }
}

impl<T: Drop> From<AllocFailed<T>> for Memory {
    fn from(_e: AllocFailed<T>) -> Memory {
        Memory
    }
}
