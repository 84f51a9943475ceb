// Why contents were not written.
use ktm_base::{Down, NoMemory};
use thiserror::Error;

/// Why contents were not written. They are as they were.
#[derive(Clone, Copy, Debug, PartialEq, Eq, Error)]
pub enum ExtentFault {
    /// The disk has no power.
    #[error("the disk has no power")]
    Down,
    /// Memory was wanted and not to be had. Nothing was written.
    #[error("out of memory")]
    NoMemory,
}

impl From<Down> for ExtentFault {
    fn from(_: Down) -> Self {
        ExtentFault::Down
    }
}

impl From<NoMemory> for ExtentFault {
    fn from(_: NoMemory) -> Self {
        ExtentFault::NoMemory
    }
}
