//! The durable state that stands in the bytes of a snapshot: it is read, tested and made in memory.
#![tactic(auto)]

mod add;
mod alone;
mod beside;
mod enlisted;
mod front;
mod head;
mod keys;
mod managers;
mod read;
mod saved;
mod transactions;

pub use read::read_state;
pub use saved::Saved;
