//! The lines that the machine answers with: `ok` with what there is to tell, or the name of a refusal. They are written
//! and read.
#![tactic(auto)]

mod fault;
mod information;
mod laws;
mod notification;
mod read;
mod refusal;
mod texts;
mod write;

pub use fault::ReplyFault;
pub use laws::law_of_worked_replies;
pub use read::{law_of_round_trip, read_reply};
pub use write::{put_reply, write_reply};
