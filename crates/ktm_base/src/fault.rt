// Why a call to the outside was not answered.
use std::alloc::{AllocError, AllocFailed};
use thiserror::Error;

/// A source, a sink or a block device failed. Its count of faults rose in the call.
#[derive(Clone, Copy, Debug, PartialEq, Eq, Error)]
#[error("a device failed")]
pub struct Failed;

/// The disk has no power: it had none when the call came, or it lost it in the call.
#[derive(Clone, Copy, Debug, PartialEq, Eq, Error)]
#[error("the disk has no power")]
pub struct Down;

/// Memory was wanted and not to be had.
#[derive(Clone, Copy, Debug, PartialEq, Eq, Error)]
#[error("out of memory")]
pub struct NoMemory;

impl From<AllocError> for NoMemory {
    fn from(_: AllocError) -> Self {
        NoMemory
    }
}

impl<T: Drop> From<AllocFailed<T>> for NoMemory {
    fn from(_: AllocFailed<T>) -> Self {
        NoMemory
    }
}
