// The one error that any crate of the store may answer.

use std::alloc::{AllocError, AllocFailed};
use thiserror::Error;

/// The allocator gave no memory. The call that answers so says what stays as it was.
#[derive(Clone, Copy, Debug, PartialEq, Eq, Error)]
#[error("out of memory")]
pub struct Memory;

impl From<AllocError> for Memory {
    ghost from_gives = { λ _ _. Unit {0} };

    fn from(_: AllocError) -> Memory {
        Memory
    }
}

impl<T: Drop> From<AllocFailed<T>> for Memory {
    ghost from_gives = { λ _ _. Unit {0} };

    fn from(_: AllocFailed<T>) -> Memory {
        Memory
    }
}
