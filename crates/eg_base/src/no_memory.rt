// The refusal of a call that has no other one.
use std::alloc::{AllocError, AllocFailed};

/// Memory ran out: the one refusal of a call that may answer this. Where no clause of the call says when, it
/// may come at any time.
#[derive(Clone, Copy, Debug, PartialEq, Eq)]
pub struct NoMemory;

impl From<AllocError> for NoMemory {
    fn from(_: AllocError) -> NoMemory {
        NoMemory
    }
}

impl<T: Drop> From<AllocFailed<T>> for NoMemory {
    fn from(_value: AllocFailed<T>) -> NoMemory {
        NoMemory
    }
}
