// What a snapshot stands for.
use ktm_base::Bytes;
use ktm_keyed::KeyedList;
use ktm_waiting::{Managers, Transactions};
use txf_durable::{DurableFiles, Waiting};

/// What a snapshot stands for, in memory.
#[derive(Drop)]
pub struct Saved {
    /// How many events were ever recorded.
    pub events: u64,
    /// How many boots there were.
    pub boots: u32,
    /// The committed files.
    pub files: DurableFiles,
    /// The committed keys, by rising key.
    pub keys: KeyedList<Bytes>,
    /// The durable resource managers, by rising Id.
    pub managers: Managers,
    /// The transactions that are not over, by rising Id.
    pub transactions: Transactions,
    /// What the changes of those that wait hold of the files.
    pub waiting: Waiting,
}
