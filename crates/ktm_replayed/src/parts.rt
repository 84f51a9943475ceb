// What is taken out of a state that was read.
use ktm_base::{Bytes, Id};
use ktm_keyed::KeyedList;
use ktm_world::Recorded;
use txf_durable::FilesRead;

/// What a machine starts from.
#[derive(Drop)]
pub struct DurableParts {
    /// The committed files, of which none was changed since.
    pub files: FilesRead,
    /// The committed keys, by rising key.
    pub keys: KeyedList<Bytes>,
    /// The durable resource managers, by rising Id.
    pub managers: Vec<Id>,
    /// The transactions that are not over, by rising Id.
    pub transactions: Vec<Recorded>,
}
