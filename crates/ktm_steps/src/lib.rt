//! Laws of the steps by which a transaction goes on, and of the rows of the phase table: each is the contract of a function that
//! does nothing.
#![tactic(auto)]

mod laws;

pub use laws::{law_of_events_ahead, law_of_fading, law_of_outcomes, law_of_rows};
