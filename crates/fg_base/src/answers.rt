//! The two answers that carry nothing but themselves.

use std::alloc::{AllocError, AllocFailed};
use thiserror::Error;

/// The answer for want of memory. It has no further cause, and no other answer is merged with it.
#[derive(Clone, Copy, PartialEq, Eq, Debug, Error)]
#[error("memory")]
pub struct Memory;

impl From<AllocError> for Memory {
    fn from(_error: AllocError) -> Memory {
        Memory
    }
}

impl<T: Drop> From<AllocFailed<T>> for Memory {
    fn from(_error: AllocFailed<T>) -> Memory {
        Memory
    }
}

/// A call of the outside failed; the count of faults of the object that was called tells of it.
#[derive(Clone, Copy, PartialEq, Eq, Debug, Error)]
#[error("failed")]
pub struct Failed;
