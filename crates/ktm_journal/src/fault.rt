// Why an image was not loaded.
use thiserror::Error;

/// Why an image was not loaded.
#[derive(Clone, Copy, Debug, PartialEq, Eq, Error)]
pub enum LoadFault {
    /// The disk has no power.
    #[error("the disk has no power")]
    Down,
    /// The bytes are no image, for what stands at this offset: 0 for the length and the header, the begin of the
    /// snapshot's area, or the gate of the first bad frame.
    #[error("bad image at {0}")]
    Bad(u64),
    /// Memory was wanted and not to be had. Nothing was written.
    #[error("out of memory")]
    NoMemory,
}
