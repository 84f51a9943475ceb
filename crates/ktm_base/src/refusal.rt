// Why a command was refused.

/// The refusals, in the order in which a command is tested for them. The names after the first three are those of
/// Microsoft's system error codes.
#[derive(Clone, Copy, PartialEq, Eq)]
pub enum Refusal {
    /// The line is not in the grammar.
    BadLine,
    /// The machine is down, or the disk lost its power in the call.
    MachineDown,
    /// A restart of a machine that is up.
    MachineUp,
    /// A label that names no handle of the process, or one of another kind of object.
    InvalidHandle,
    /// A file handle whose transaction is over, or whose file is gone.
    HandleNoLongerValid,
    /// The transaction has committed.
    TransactionAlreadyCommitted,
    /// The transaction has rolled back.
    TransactionAlreadyAborted,
    /// The transaction is on its way to an outcome.
    TransactionNotActive,
    /// A superior's call on an ordinary enlistment.
    EnlistmentNotSuperior,
    /// The transaction's phase or the enlistment's state does not allow the call.
    TransactionRequestNotValid,
    /// A value out of its range, or a label that is in use.
    InvalidParameter,
    /// A text that is no path, or no pattern.
    InvalidName,
    /// No live transaction has this GUID.
    TransactionNotFound,
    /// No resource manager has this GUID.
    ResourceManagerNotFound,
    /// No live enlistment of this resource manager has this GUID.
    EnlistmentNotFound,
    /// No such key.
    NotFound,
    /// A directory on the way is missing, or is a file.
    PathNotFound,
    /// No such file or directory.
    FileNotFound,
    /// A new file's name is in use.
    FileExists,
    /// A new directory's name, or the name that something is moved to, is in use.
    AlreadyExists,
    /// The transaction has a superior enlistment.
    TransactionSuperiorExists,
    /// The call is not for a directory, for the root, or for a handle with this access.
    AccessDenied,
    /// The call is for directories, and this is a file.
    Directory,
    /// The directory has entries.
    DirNotEmpty,
    /// Another transaction stands in the way.
    TransactionalConflict,
    /// An open file's share mode stands in the way.
    SharingViolation,
    /// The queue of notifications is empty.
    WaitTimeout,
    /// A limit on objects, handles or pending changes.
    NotEnoughQuota,
    /// A limit on file contents, nodes or keys.
    DiskFull,
    /// A restart of an image whose count of boots or of events is near its end.
    ImageWorn,
}
