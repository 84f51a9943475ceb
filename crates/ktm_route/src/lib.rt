//! From what is asked to what is decided on it: labels and GUIDs become objects, their handles and transactions are tested, and
//! the call that comes out is decided by the machine's memory. Contents are the places of their bytes there: what a read tells, and
//! what a write or an end of a file changes, is told to those that have the bytes.
#![tactic(auto)]

mod asked;
mod completions;
mod enlistment_routes;
mod file_routes;
mod labels;
mod laws;
mod manager_routes;
mod route;
mod targets;
mod transaction_routes;

pub use asked::{Asked, decide};
pub use completions::command_of;
pub use ktm_room::law_of_frames;
pub use laws::law_of_completions;
pub use targets::{Target, end_target, read_target, write_target};
