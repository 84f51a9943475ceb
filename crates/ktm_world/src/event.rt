// What is recorded in the log.
use crate::{Change, Changes};
use ktm_base::{Bytes, Id, Items};
use ktm_keyed::Keyed;

/// A key of the store, with its value.
pub type Entry = Keyed<Bytes>;

/// A key, and the value that it is given, or none where it is unset.
pub type Setting = Keyed<Option<Bytes>>;

/// Settings, one for each key, by rising key.
pub type Settings = Items<Setting>;

/// What one participant of a transaction has to record.
#[derive(Debug, Drop)]
pub enum Part {
    /// An enlistment of a durable resource manager, with its recovery information.
    Enlistment {
        enlistment: Id,
        manager: Id,
        information: Bytes,
    },
    /// The changes of the files.
    Changes(Changes),
    /// The settings of the key-value resource manager.
    Settings(Settings),
}

/// Which participant of a decided transaction is done.
#[derive(Clone, Copy, Debug)]
pub enum DonePart {
    Enlistment(Id),
    Files,
    Keys,
}

/// A durable fact.
#[derive(Debug, Drop)]
pub enum Event {
    /// The machine started, for the so many-th time.
    Boot {
        boot: u32,
    },
    /// A durable resource manager was made.
    MadeRm {
        manager: Id,
    },
    /// A plain call changed the tree.
    Plain {
        change: Change,
    },
    /// A participant of a transaction is prepared.
    Ready {
        transaction: Id,
        part: Part,
    },
    /// A transaction that has this one part alone committed; it is one of changes or of settings.
    Single {
        transaction: Id,
        part: Part,
    },
    /// A transaction waits for its superior, which is this enlistment.
    Held {
        transaction: Id,
        enlistment: Id,
        manager: Id,
        information: Bytes,
    },
    /// A prepared transaction commits.
    Decide {
        transaction: Id,
    },
    /// A prepared transaction rolls back.
    Undo {
        transaction: Id,
    },
    /// A participant of a transaction that commits has finished.
    Done {
        transaction: Id,
        done: DonePart,
    },
}
