//! What transactions that are under way may still record, in bytes: their debts, for which the log keeps room. A law of the whole
//! model, which is the contract of a function that does nothing.
#![tactic(auto)]

mod debts;

pub use debts::law_of_debts;
