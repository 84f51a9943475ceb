// How a put of whole units is recorded.

/// What whole units that are put into a file come from. So they are recorded, with their pages.
#[derive(Clone, Copy)]
pub enum Extent {
    /// So many bytes are put at an offset.
    Put { offset: u64, len: u32 },
    /// The file becomes longer, up to the end of the units.
    End,
}
