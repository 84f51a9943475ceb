//! The key-value resource manager: the committed keys, and what each undecided transaction has set.
#![tactic(auto)]

mod call;
mod count;
mod held;
mod list;
mod make;
mod own;
mod participant;
mod rm;
mod setting_list;

pub use call::{KvCall, Room};
pub use participant::PreparedSettings;
pub use rm::KvRm;
