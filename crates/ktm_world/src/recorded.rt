// The parts of what outlives a loss of power.

use crate::Part;
use ktm_base::{Bytes, Id, Text};

/// A file or a directory. The root is not among them: it is a directory with the number 1.
#[derive(Drop)]
pub struct Node {
    /// At least 2; no later node has the same.
    pub number: u64,
    /// The number of the directory that it is in.
    pub parent: u64,
    pub name: Text,
    /// The bytes of a file; a directory has none.
    pub content: Option<Bytes>,
}

/// How far a recorded transaction is.
#[derive(Clone, Copy)]
pub enum Stage {
    /// Some of its parts are ready.
    Ready,
    /// It waits for its superior.
    Held,
    /// It commits.
    Decided,
}

/// The superior of a transaction that waits for it.
#[derive(Debug, Drop)]
pub struct Superior {
    pub enlistment: Id,
    pub manager: Id,
    /// The recovery information.
    pub information: Bytes,
}

/// What a participant of a transaction recorded, and whether it is done.
#[derive(Drop)]
pub struct RecordedPart {
    pub is_done: bool,
    pub part: Part,
}
