//! That what commands come to does not depend on the bytes of files: the contract of a function that does nothing.
#![tactic(auto)]

mod alike;

pub use alike::law_of_alike_presents;
