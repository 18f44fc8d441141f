//! The one error of the repository for memory that was refused.
#![tactic(auto)]

use std::alloc::{AllocError, AllocFailed};

/// Out of memory: the allocator refused it. What the call would have changed is as before.
#[derive(Clone, Copy, Debug, PartialEq, Eq)]
pub struct NoMemory;

impl From<AllocError> for NoMemory {
    fn from(_error: AllocError) -> NoMemory {
        NoMemory
    }
}

impl<T: Drop> From<AllocFailed<T>> for NoMemory {
    fn from(_error: AllocFailed<T>) -> NoMemory {
        NoMemory
    }
}
