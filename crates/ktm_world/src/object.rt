// Handles, what they name, and transactions.
use ktm_base::{Id, Label, Pid};

/// What a handle names.
#[derive(Clone, Copy)]
pub enum Object {
    Transaction(Id),
    Manager(Id),
    Enlistment(Id),
    /// An open file, by its number in this boot.
    File(u32),
}

/// A label of a process that is bound to an object.
#[derive(Clone, Copy)]
pub struct Handle {
    pub process: Pid,
    pub label: Label,
    pub object: Object,
}

/// How far a transaction is on its way to its end.
#[derive(Clone, Copy)]
pub enum Phase {
    /// It takes changes.
    Active,
    /// A commit was asked for, and its superior was told.
    Requested,
    /// Enlistments owe PrePrepareComplete.
    PrePreparing,
    /// All have pre-prepared, and its superior was told.
    PrePrepared,
    /// Enlistments owe PrepareComplete.
    Preparing,
    /// One enlistment was asked to commit in one phase.
    SinglePhase,
    /// All are prepared, and its superior was told.
    Held,
    /// All were prepared, and its superior was told, before a restart.
    InDoubt,
    /// It commits, and enlistments owe CommitComplete.
    Committing,
    /// It rolls back, and enlistments owe RollbackComplete.
    Aborting,
    /// It has its outcome, and all who take part know it.
    Ended,
}

/// What became of a transaction, as GetTransactionInformation tells it.
#[derive(Clone, Copy)]
pub enum TransactionOutcome {
    Undetermined,
    Committed,
    Aborted,
}

/// A transaction of this boot, or one that the restart brought back.
#[derive(Clone, Copy)]
pub struct Transaction {
    pub id: Id,
    /// In milliseconds; 0 and 4,294,967,295 mean none. 0 once it has ended.
    pub timeout: u32,
    /// The clock when it was made, in milliseconds since the boot; 0 where it was brought back, and once it has ended.
    pub created: u64,
    pub phase: Phase,
    pub outcome: TransactionOutcome,
    /// Whether the log has a Ready or a Held of it.
    pub is_recorded: bool,
}
