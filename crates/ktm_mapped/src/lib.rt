//! That what durable states come to does not depend on the bytes of files: the contract of a function that does nothing.
#![tactic(auto)]

mod mapped;

pub use mapped::law_of_mapped_states;
