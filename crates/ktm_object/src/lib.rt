//! The handles of all processes: which process holds which object under which label.
#![tactic(auto)]

mod closed;
mod handles;
mod name;

pub use closed::Closed;
pub use handles::Handles;
