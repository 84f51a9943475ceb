//! That writing bytes comes to what the putting of the units comes to that have these bytes then: the contract of a function that does
//! nothing.
#![tactic(auto)]

mod units;

pub use units::law_of_units;
