//! The law that no limit is passed: it is the contract of a function that does nothing.
#![tactic(auto)]

mod limits;

pub use limits::law_of_limits;
