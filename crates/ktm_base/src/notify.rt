// What a resource manager is told.

/// The kinds of notification, by Microsoft's names without the prefix.
#[derive(Clone, Copy, PartialEq, Eq)]
pub enum Notify {
    /// Get ready to prepare.
    PrePrepare,
    /// Make sure that it can commit and can roll back.
    Prepare,
    /// The transaction commits. No superior is told this.
    Commit,
    /// The transaction rolls back. A superior that asked for it is not told this.
    Rollback,
    /// To a superior: all have pre-prepared.
    PrePrepareComplete,
    /// To a superior: all are prepared.
    PrepareComplete,
    /// To a superior: all have committed.
    CommitComplete,
    /// To a superior: all have rolled back.
    RollbackComplete,
    /// A restart brought this enlistment back.
    Recover,
    /// To a superior: the transaction waits for its decision.
    RecoverQuery,
    /// The transaction waits for its superior.
    Indoubt,
    /// Commit in one phase, or reject that.
    SinglePhaseCommit,
    /// To a superior: a commit was asked for.
    CommitRequest,
    /// No more enlistments are to be recovered.
    LastRecover,
}
