//! What memory keeps of the transactions that the log has: which they are, in what order their parts became ready, and
//! which of them are done. What the parts have in them stands in the layers alone.
#![tactic(auto)]

mod heads;
mod laws;
mod marks;
mod parts;
mod recording;
mod room;
mod trace;
mod transactions;

pub use laws::{law_of_contents, law_of_few, law_of_kept, law_of_traces};
pub use parts::{PartRef, Parts};
pub use recording::Recording;
pub use room::{MOST_LIVE_PARTS, MOST_NOTED};
pub use trace::Trace;
pub use transactions::{TransactionRef, Transactions};
