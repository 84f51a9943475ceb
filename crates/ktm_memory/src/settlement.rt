// What is left to do once a command is decided.
use ktm_base::{Bytes, Id, Label, Pid};
use ktm_phase::Steps;
use ktm_world::{Durability, EnlistmentKind, Object, Transaction};
use txf_calls::Plan;
use txf_volume::Ready;

/// What becomes of the labels of a process.
#[derive(Drop)]
pub enum Labels {
    /// The label is bound to the object.
    Bind {
        label: Label,
        object: Object,
    },
    /// The label is bound to what a label of a process names.
    Duplicate {
        label: Label,
        from: Pid,
        source: Label,
    },
    /// The label is unbound; an active transaction rolls back that has no other handle, and a file is closed that has none.
    Unbind(Label),
    /// So it is with each label, by rising label.
    UnbindAll,
}

/// What is left to do in memory once the events of a command are recorded. It takes no memory.
#[derive(Drop)]
pub enum Settlement {
    Nothing,
    /// A transaction with the next number begins, and the label is bound to it.
    Begin {
        process: Pid,
        label: Label,
        timeout: u32,
    },
    /// The files are changed as a plain call has it, and the label is bound to the file that it opens.
    Change {
        process: Pid,
        label: Option<Label>,
        plan: Plan,
        ready: Ready,
    },
    /// The transaction goes on by these steps, where this enlistment calls, if one does.
    Course {
        transaction: Transaction,
        caller: Option<Id>,
        steps: Steps,
    },
    /// Labels of the process are bound or unbound.
    Handles {
        process: Pid,
        labels: Labels,
    },
    /// So many milliseconds pass, and the transactions that are due then roll back.
    Pass(u32),
    /// A resource manager with the next number is made, and the label is bound to it.
    MakeManager {
        process: Pid,
        label: Label,
        durability: Durability,
    },
    /// The resource manager is told of each of its enlistments that is to be recovered, and that these were all.
    Recover(Id),
    /// The resource manager takes the first notification that waits for it.
    Take(Id),
    /// An enlistment of the resource manager in the transaction is made, and the label is bound to it.
    Enlist {
        process: Pid,
        label: Label,
        manager: Id,
        transaction: Id,
        kind: EnlistmentKind,
    },
    /// The enlistment has this recovery information from now on.
    Inform {
        enlistment: Id,
        information: Bytes,
    },
}
