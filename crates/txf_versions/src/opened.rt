// A first open.
use ktm_base::Id;

/// A transaction's first open of a file, and the version that it fixed.
#[derive(Clone, Copy)]
pub struct Opened {
    pub transaction: Id,
    pub file: u64,
    /// How many changes of the file's bytes were committed since the restart, as it was opened.
    pub version: u64,
}
