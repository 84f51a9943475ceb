//! What a restart brings back: the durable resource managers, the transactions that wait for their superiors or commit and
//! have enlistments that have not finished, those enlistments, and what transactions in doubt changed and set.
#![tactic(auto)]

mod enlistments;
mod laws;
mod restoring;
mod starting;
mod transactions;

pub use enlistments::enlistments_back;
pub use laws::{law_of_coming_back, law_of_in_doubt};
pub use restoring::{Restored, count_in_doubt, restore};
pub use starting::start;
pub use transactions::{is_brought_back, transaction_back};
