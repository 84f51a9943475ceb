// What calls tell.
use ktm_base::Notify;
use ktm_world::{TransactionOutcome, TransactionState};
use uuid::Uuid;

/// What became of a transaction that was asked to commit.
#[derive(Clone, Copy, Debug, PartialEq, Eq)]
pub enum CommitState {
    /// It has committed, and its changes outlive a loss of power.
    Committed,
    /// It waits for its superior, for votes, or for its enlistments to finish.
    Pending,
}

/// How a transaction stands.
#[derive(Clone, Copy)]
pub struct TransactionInformation {
    /// Its GUID.
    pub transaction: Uuid,
    pub state: TransactionState,
    pub outcome: TransactionOutcome,
}

/// What a resource manager is told.
#[derive(Clone, Copy)]
pub struct Notification {
    pub kind: Notify,
    /// The GUID of the enlistment that it is of; the last one of a recovery has none.
    pub enlistment: Option<Uuid>,
}
