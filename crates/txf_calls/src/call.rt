// The calls on files.
use ktm_base::Text;
use ktm_content::Placed;
use ktm_world::{Access, Disposition, ShareMode};
use std::marker::Model;
use txf_opens::OpenFile;

/// How many handles are free, how many changes of files may wait, and how many units of 4,096 bytes, and as many nodes,
/// may be in use.
#[derive(Drop)]
pub struct Room {
    pub handles: u32,
    pub changes: u32,
    pub units: u32,
}

impl Model for Room {
    ghost use Rattle.ktm_world.specs.FileOutcome.{FileRoom};

    ghost Value = { FileRoom };

    ghost view = { λ r. record { handles = r.handles; changes = r.changes; units = r.units } };
}

/// A call on files, plain or in a transaction. A call on an open file is one of the transaction in which that is open.
#[derive(Drop)]
pub enum FileCall {
    /// Makes or opens a file, as the disposition says.
    Create {
        path: Text,
        access: Access,
        share: ShareMode,
        disposition: Disposition,
    },
    /// Writes bytes at an offset.
    Write {
        file: OpenFile,
        offset: u64,
        bytes: Placed,
    },
    /// Puts whole units, from the begin of one on.
    WriteUnits {
        file: OpenFile,
        start: u64,
        contents: Placed,
    },
    /// Makes a file so long.
    SetEnd {
        file: OpenFile,
        size: u64,
    },
    /// Tells how many bytes a file has.
    Size {
        file: OpenFile,
    },
    /// Makes sure that what was written is safe.
    Flush {
        file: OpenFile,
    },
    /// Deletes a file.
    Delete {
        path: Text,
    },
    /// Makes a directory.
    MakeDirectory {
        path: Text,
    },
    /// Removes a directory without entries.
    RemoveDirectory {
        path: Text,
    },
    /// Moves a file or a directory to a free name.
    Move {
        source: Text,
        target: Text,
    },
    /// Lists the names that a pattern matches.
    Find {
        pattern: Text,
    },
}
