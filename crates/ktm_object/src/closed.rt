// What is told of a handle that is gone.
use ktm_base::Label;
use ktm_world::Object;

/// A handle that is gone: what it named, and whether no other handle names that.
#[derive(Clone, Copy)]
pub struct Closed {
    pub label: Label,
    pub object: Object,
    pub is_last: bool,
}
