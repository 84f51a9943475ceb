//! The transaction manager: the clock, the transactions of a boot and those that a restart brought back, their enlistments, and the
//! resource managers with what waits for them.
#![tactic(auto)]

mod ending;
mod enlisting;
mod going;
mod live;
mod managing;
mod place;
mod recovery;
mod refusals;
mod steps;
mod table;
mod timeouts;
mod tm;

pub use refusals::{active_refusal, is_active, may_roll_back, rollback_refusal, state_of};
pub use tm::Tm;
