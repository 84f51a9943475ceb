//! The law that no notification wants room: it is the contract of a function that does nothing.
#![tactic(auto)]

mod slots;

pub use slots::law_of_slots;
