// A call whose labels are known.
use crate::extent::Extent;
use crate::settlement::Labels;
use ktm_base::{Bytes, Id, Label};
use ktm_content::Placed;
use ktm_world::{Durability, EnlistmentKind, PhaseInput, Transaction};
use kv_rm::KvCall;
use txf_calls::FileCall;
use txf_opens::OpenFile;

/// A call whose labels have become objects, which passed the tests of their handles.
#[derive(Drop)]
pub enum Routed {
    Create {
        label: Label,
        timeout: u32,
    },
    /// This comes to the transaction, from the enlistment, if one calls.
    Course {
        transaction: Transaction,
        caller: Option<Id>,
        input: PhaseInput,
    },
    Information(Transaction),
    MakeManager {
        label: Label,
        durability: Durability,
    },
    /// The resource manager recovers.
    Recover(Id),
    /// The resource manager takes its first notification.
    Take(Id),
    Enlist {
        label: Label,
        manager: Id,
        transaction: Id,
        kind: EnlistmentKind,
    },
    /// The recovery information of the enlistment is set.
    Inform {
        enlistment: Id,
        information: Bytes,
    },
    /// The recovery information of the enlistment is told.
    Tell(Id),
    Handles(Labels),
    Keys {
        who: Option<Id>,
        call: KvCall,
    },
    Files {
        who: Option<Id>,
        // What the file that is opened is to be called.
        label: Option<Label>,
        call: FileCall,
    },
    /// Whole units are put into an open file, from the begin of one on, and recorded by their extent.
    Units {
        who: Option<Id>,
        file: OpenFile,
        start: u64,
        contents: Placed,
        extent: Extent,
    },
}
