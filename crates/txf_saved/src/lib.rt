//! The committed files of a snapshot: its nodes are read, tested and made.
#![tactic(auto)]

mod laws;
mod listed;
mod making;
mod saved;

pub use laws::law_of_next;
pub use saved::read_files;
