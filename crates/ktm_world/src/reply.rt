// What the machine answers.
use crate::TransactionOutcome;
use ktm_base::{Bytes, Notify, Refusal, TextList};
use uuid::Uuid;

/// How a transaction stands, beside its outcome.
#[derive(Clone, Copy)]
pub enum TransactionState {
    Normal,
    /// After a restart it waits for its superior.
    Indoubt,
    /// It commits, and not all who take part have finished.
    CommittedNotify,
}

/// The answer to a line.
#[derive(Drop)]
pub enum Reply {
    Refused(Refusal),
    /// It is done, and there is nothing to tell.
    Done,
    /// The GUID of the object that was made.
    Guid(Uuid),
    /// The transaction has committed.
    Committed,
    /// The transaction waits for its superior, for votes, or for its enlistments to finish.
    Pending,
    /// A transaction: its GUID, and how it stands.
    Information {
        transaction: Uuid,
        state: TransactionState,
        outcome: TransactionOutcome,
    },
    /// A notification, with the GUID of its enlistment; the last one of a recovery has none.
    Notification {
        kind: Notify,
        enlistment: Option<Uuid>,
    },
    /// Bytes of a file, of a value or of recovery information.
    Contents(Bytes),
    /// How many bytes a file has.
    Size(u64),
    /// Names in a directory, each directory's with a backslash behind it.
    Names(TextList),
    /// Keys, by rising key.
    Keys(TextList),
    /// The machine started: how many events it found, and how many transactions are in doubt.
    Restarted {
        events: u64,
        in_doubt: u32,
    },
    /// The image cannot be opened, for what stands at this offset.
    BadImage(u64),
}
