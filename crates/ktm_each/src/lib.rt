//! That what holds of each byte of each content goes on to hold: the contract of a function that does nothing.
#![tactic(auto)]

mod each;

pub use each::{OfBytes, law_of_each_byte};
