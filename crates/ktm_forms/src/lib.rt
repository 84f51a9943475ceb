//! Which replies a call may have, by its form.
#![tactic(auto)]

mod laws;

pub use laws::law_of_replies;
