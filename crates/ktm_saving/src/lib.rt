//! The machine's memory as a snapshot: what was recorded, by what the layers hold, is written piece by piece from where it
//! stands, and lets the journal begin anew.
#![tactic(auto)]

mod compaction;
mod entries;
mod managers;
mod nodes;
mod owned;
mod state;
mod transactions;

pub use compaction::compact;
pub use state::write_state;
