//! Where the entry of a transaction is, in a list of what some transactions have: found without a walk of the list.
#![tactic(auto)]

mod places;

pub use places::{Entry, Places};
