// Where on a disk a log is.

/// A part of a disk, in bytes.
#[derive(Clone, Copy)]
pub struct Area {
    pub at: u64,
    pub len: u64,
}
