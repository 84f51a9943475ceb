// The steps by which a transaction goes on, which are data.
use crate::object::{Phase, TransactionOutcome};
use ktm_base::Notify;

/// Which enlistments of the transaction.
#[derive(Clone, Copy)]
pub enum Who {
    /// Those that take part.
    Parts,
    /// Those of them that ask for PREPREPARE.
    Asking,
    /// Those of them that are prepared and recovered.
    Prepared,
    /// Those of them that are recovered.
    Recovered,
    /// Its superior.
    Superior,
    /// Its superior, unless it made the call.
    OtherSuperior,
    /// The one that makes the call.
    Caller,
}

/// The notification that an enlistment owes an answer to.
#[derive(Clone, Copy)]
pub enum Owed {
    PrePrepare,
    Prepare,
    /// COMMIT, or SINGLE_PHASE_COMMIT.
    Commit,
    Rollback,
}

/// What becomes of the enlistment that makes the call. But for the last it owes nothing then.
#[derive(Clone, Copy)]
pub enum Answered {
    PrePrepared,
    Prepared,
    ReadOnly,
    Finished,
    Recovered,
}

/// What is recorded, where there is something to record.
#[derive(Clone, Copy)]
pub enum Fact {
    /// The files are prepared, where they take part.
    ReadyFiles,
    /// The keys are prepared, where they take part.
    ReadyKeys,
    /// The one that makes the call is prepared, where its resource manager is durable.
    Ready,
    /// The transaction waits for its superior, where it has one.
    Held,
    /// It commits, where the log has a Ready or a Held of it.
    Decide,
    /// It rolls back, where the log has one.
    Undo,
    /// The files are done, where they take part.
    DoneFiles,
    /// The keys are done, where they take part.
    DoneKeys,
    /// The one that makes the call is done, where its resource manager is durable.
    Done,
    /// The files alone commit.
    SingleFiles,
    /// The keys alone commit.
    SingleKeys,
}

/// A step. The default means nothing: a list of steps fills its free places with it.
#[derive(Clone, Copy, Default)]
pub enum Step {
    /// This is recorded.
    Record(Fact),
    /// The files and the keys commit, where they take part.
    #[default]
    Commit,
    /// These are told this.
    Tell(Who, Notify),
    /// These are told this, and owe an answer.
    Ask(Who, Notify, Owed),
    /// The one that makes the call is changed.
    Change(Answered),
    /// The transaction is in this phase from now on.
    Enter(Phase),
    /// Its outcome is known from now on.
    Decide(TransactionOutcome),
    /// It has ended with this outcome, and its superior is told.
    End(TransactionOutcome),
    /// Where nobody is unfinished it has ended with this outcome, and its superior is told.
    EndWhereFinished(TransactionOutcome),
}
