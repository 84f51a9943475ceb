// What a call does to files and names.
use ktm_world::{Access, ShareMode};

/// A name in a directory; names are compared without case.
#[derive(Clone, Copy)]
pub struct Place<'a> {
    pub directory: u64,
    pub name: &'a [u8],
}

/// What a call does to files and names, by which others may refuse it.
#[derive(Clone, Copy)]
pub enum Act<'a> {
    /// Opens a file for this access, with this share mode, and empties it or not.
    Open {
        file: u64,
        access: Access,
        truncates: bool,
        share: ShareMode,
    },
    /// Deletes a file with its name.
    Delete {
        file: u64,
        at: Place<'a>,
    },
    /// Moves a file from its name to a free one.
    MoveFile {
        file: u64,
        from: Place<'a>,
        to: Place<'a>,
    },
    /// Makes a file or a directory under a free name.
    Make {
        at: Place<'a>,
    },
    /// Removes a directory with its name.
    DropDirectory {
        directory: u64,
        at: Place<'a>,
    },
    /// Moves a directory from its name to a free one.
    MoveDirectory {
        directory: u64,
        from: Place<'a>,
        to: Place<'a>,
    },
}
