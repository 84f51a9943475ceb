//! The files as the machine has them in memory: what is committed, what transactions first opened and changed, what is open
//! and what is held.
#![tactic(auto)]

mod change;
mod check;
mod commit;
mod counts;
mod ends;
mod files;
mod handles;
mod holding;
mod limits;
mod names;
mod own;
mod own_change;
mod pages;
mod participant;
mod plain;
mod recorded;
mod transacted;
mod volume;
mod written;

pub use files::Files;
pub use participant::PreparedChanges;
pub use plain::Ready;
pub use written::Written;
