//! The course of a transaction to its end: what comes to it is tested, and comes to steps, which are data of a fixed size
//! that whoever holds the enlistments carries out.
#![tactic(auto)]

mod allowed;
mod enlistment;
mod laws;
mod phase;
mod rows;
mod superior;

pub use enlistment::{Enlistment, Vote};
pub use laws::{law_of_calls, law_of_coming};
pub use phase::{Steps, step};
pub use superior::SuperiorCall;
