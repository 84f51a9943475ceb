// What the calls of a process choose among.

/// What an open file may be used for.
#[derive(Clone, Copy)]
pub enum Access {
    Read,
    Write,
    ReadWrite,
}

/// What other open files of the same group may be used for, while a file is open.
#[derive(Clone, Copy)]
pub enum ShareMode {
    Nothing,
    Read,
    Write,
    ReadWrite,
}

/// What opening a file makes of a name that is there, and of one that is not.
#[derive(Clone, Copy)]
pub enum Disposition {
    /// Makes a file; the name is to be free.
    CreateNew,
    /// Makes a file, or empties the one that is there.
    CreateAlways,
    /// Opens the file that is there.
    OpenExisting,
    /// Opens the file that is there, or makes one.
    OpenAlways,
    /// Empties the file that is there. It asks for write access.
    TruncateExisting,
}

/// Whether a resource manager outlives the boot in which it was made.
#[derive(Clone, Copy)]
pub enum Durability {
    Volatile,
    Durable,
}

/// What an enlistment asks for, or that it is the one that drives its transaction from outside.
#[derive(Clone, Copy)]
pub enum EnlistmentKind {
    /// PREPARE alone.
    Plain,
    /// PREPREPARE before PREPARE.
    PrePrepare,
    /// It can commit in one phase.
    SinglePhase,
    /// Both.
    Both,
    /// It decides the outcome.
    Superior,
}
