//! Transactions, transacted files and keys, as values with types: a machine owns its disk, and each call has a method whose
//! answers are those of the call and no others. All that a program needs is here.
#![tactic(auto)]

mod answer;
mod enlistments;
mod failure;
mod files;
mod handle;
mod keys;
mod law;
mod machine;
mod resource_managers;
mod restart;
mod text;
mod told;
mod transactions;

pub use failure::{CompletionFault, Failure};
pub use handle::{Enlistment, OpenFile, ResourceManager, Transaction};
pub use ktm_base::{Bytes, Disk, Items, NoMemory, Notify, PowerDisk, Refusal, TextList, Texts};
pub use ktm_cut::CutDisk;
pub use ktm_kernel::OpenFault;
pub use ktm_os::{FileBlock, FileDisk, LateFile, open_disk};
pub use ktm_world::{
    Access, Disposition, Durability, EnlistmentKind, ShareMode, TransactionOutcome,
    TransactionState,
};
pub use machine::{Machine, NotOpened, Opened};
pub use restart::Found;
pub use text::{Text, TextFault};
pub use told::{CommitState, Notification, TransactionInformation};
pub use uuid::Uuid;
