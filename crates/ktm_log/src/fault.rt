// Why a log was not read or not written.
use thiserror::Error;

/// Why a scan has no log.
#[derive(Clone, Copy, Debug, PartialEq, Eq, Error)]
pub enum LogFault {
    /// The disk has no power.
    #[error("the disk has no power")]
    Down,
    /// There is an open gate at this offset of the disk, and its frame passes the area's end.
    #[error("bad frame at {0}")]
    Bad(u64),
    /// The buffer could not be made as long as the area.
    #[error("out of memory")]
    NoMemory,
}

/// Why an append did not answer.
#[derive(Clone, Copy, Debug, PartialEq, Eq, Error)]
pub enum AppendFault {
    /// The disk has no power. The frame may be there or not.
    #[error("the disk has no power")]
    Down,
    /// The area has no room for the frame and a gate behind it. No call was made.
    #[error("the log is full")]
    Full,
}

/// Why no next frame was found, and no closed gate.
#[derive(Clone, Copy)]
pub(crate) enum FrameFault {
    /// The disk has no power.
    Down,
    /// The gate is open, and its frame passes the area's end.
    Torn,
}
