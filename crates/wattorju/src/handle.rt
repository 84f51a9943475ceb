// What stands for an object that is open: the label of a handle.
ghost use Rattle.ktm_world.specs.Values.{IsLabel};

use ktm_base::Label;

/// A transaction that is open. It is given back to be closed; the last one of an active transaction rolls it back.
pub struct Transaction {
    pub(crate) label: Label,
    ghost labelled: { IsLabel label },
}

/// A file that is open. It is given back to be closed.
pub struct OpenFile {
    pub(crate) label: Label,
    ghost labelled: { IsLabel label },
}

/// A resource manager that is open. It is given back to be closed; the resource manager itself goes on.
pub struct ResourceManager {
    pub(crate) label: Label,
    ghost labelled: { IsLabel label },
}

/// An enlistment that is open. It is given back to be closed; the enlistment itself goes on.
pub struct Enlistment {
    pub(crate) label: Label,
    ghost labelled: { IsLabel label },
}
