// A notification.
use ktm_base::{Id, Notify};

/// A notification, with its enlistment; the last one of a recovery has none.
#[derive(Clone, Copy)]
pub struct Note {
    pub kind: Notify,
    pub enlistment: Option<Id>,
}
