//! Which version of a file each transaction first opened, and the bytes of versions that are no longer the last one, kept
//! once for all that opened them.
#![tactic(auto)]

mod kept;
mod name;
mod opened;
mod opens;
mod versions;

pub use opened::Opened;
pub use versions::Versions;
