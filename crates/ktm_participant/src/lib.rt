//! What is built into the machine and takes part in transactions, as a trait.
#![tactic(auto)]

mod participant;

pub use participant::{Participant, finish};
