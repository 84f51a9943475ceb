// What counts of a transaction on its way to its end, and what comes to it.
use crate::object::Phase;

/// What counts of a transaction when something comes to it: how it stands before that.
#[derive(Clone, Copy)]
pub struct Seen {
    pub phase: Phase,
    pub has_superior: bool,
    /// How many enlistments take part.
    pub enlistments: u32,
    /// How many of them ask for PREPREPARE.
    pub asking: u32,
    /// How many of them can commit in one phase.
    pub in_one_phase: u32,
    /// How many of them owe an answer.
    pub owing: u32,
    /// Whether the files take part.
    pub has_files: bool,
    /// Whether the keys take part.
    pub has_keys: bool,
}

/// What an enlistment that takes part counts for.
#[derive(Clone, Copy)]
pub struct Share {
    /// It asks for PREPREPARE.
    pub asks: bool,
    /// It can commit in one phase.
    pub allows_one_phase: bool,
    /// It owes an answer.
    pub owes: bool,
}

/// What comes to a transaction: one variant for each row of the phase table.
#[derive(Clone, Copy)]
pub enum PhaseInput {
    /// A commit is asked for.
    CommitTransaction,
    /// It is to roll back: a call asks for that, its timeout is reached, or its last handle is closed.
    Rollback,
    /// An enlistment has pre-prepared.
    PrePrepareComplete,
    /// An enlistment is prepared.
    PrepareComplete,
    /// An enlistment, which counted for this, takes part no more.
    ReadOnly(Share),
    /// One phase is not for the enlistment that was asked.
    SinglePhaseReject,
    /// An enlistment has committed.
    CommitComplete,
    /// An enlistment has rolled back.
    RollbackComplete,
    /// Its superior asks that it pre-prepares.
    PrePrepare,
    /// Its superior asks that it prepares.
    Prepare,
    /// Its superior decides that it commits.
    Commit,
    /// An ordinary enlistment recovers.
    Recover,
    /// Its superior recovers.
    RecoverSuperior,
}
