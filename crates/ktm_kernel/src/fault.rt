// Why no machine was started.
use thiserror::Error;

/// Why no machine was started.
#[derive(Clone, Copy, Debug, PartialEq, Eq, Error)]
pub enum OpenFault {
    /// The image cannot be opened, for what stands at this offset. It is as it was.
    #[error("bad image at {0}")]
    BadImage(u64),
    /// The disk has no power. What the start records may be there or not; a new image may be unfinished, and then cannot be
    /// opened.
    #[error("the disk has no power")]
    Down,
    /// The image counts 2^32 - 2 boots or more, or 2^62 events or more. It is as it was.
    #[error("worn image")]
    Worn,
    /// Out of memory. Nothing was recorded.
    #[error("out of memory")]
    NoMemory,
}
