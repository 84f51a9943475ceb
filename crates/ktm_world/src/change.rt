// What is changed in the tree of files.
use ktm_base::{Items, PageList, Text};
use ktm_content::Placed;

/// What a node of the tree is.
#[derive(Clone, Copy, Debug)]
pub enum NodeKind {
    File,
    Directory,
}

/// Bytes that are put into a file.
#[derive(Debug, Drop)]
pub enum Contents {
    /// As they stand in memory, each byte at its place.
    Whole(Placed),
    /// As they are recorded: how many there are, and the pages that hold the units of 4,096 bytes that they touch, whole.
    Paged { len: u32, pages: PageList },
}

/// A change of the tree. A node is named by its number: one that was recorded is never used again, and one that was drawn and not
/// recorded comes again in the next boot.
#[derive(Debug, Drop)]
pub enum Change {
    /// A new file without bytes, or a new directory, in a directory.
    Make {
        node: u64,
        parent: u64,
        kind: NodeKind,
        name: Text,
    },
    /// Bytes of a file, from an offset on; a gap before it is filled with zeros.
    Put {
        node: u64,
        offset: u64,
        contents: Contents,
    },
    /// A file has so many bytes then. Where it is recorded that it becomes longer, the pages hold the units from that of its
    /// old end on; else the list is empty.
    Cut {
        node: u64,
        size: u64,
        pages: PageList,
    },
    /// A node has another name, or is in another directory.
    Move {
        node: u64,
        parent: u64,
        name: Text,
    },
    /// A file, or a directory without entries, is gone.
    Drop {
        node: u64,
    },
}

/// Changes in their order.
pub type Changes = Items<Change>;
