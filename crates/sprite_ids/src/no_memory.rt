use std::alloc::{AllocError, AllocFailed};
use thiserror::Error;

/// Memory was wanting. This is the one answer of a call that no clause ties to a cause: a call that takes memory may
/// always give it, and its object is then as before unless the call says otherwise (this project).
#[derive(Clone, Copy, Debug, PartialEq, Eq, Error)]
#[error("out of memory")]
pub struct NoMemory;

impl From<AllocError> for NoMemory {
    fn from(_error: AllocError) -> NoMemory {
        NoMemory
    }
}

impl<T: Drop> From<AllocFailed<T>> for NoMemory {
    fn from(_error: AllocFailed<T>) -> NoMemory {
        NoMemory
    }
}
