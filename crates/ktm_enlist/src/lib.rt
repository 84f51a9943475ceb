//! The enlistments of a boot by rising Id, those that a restart brought back first: what counts of those of a transaction, and
//! how they are told, asked and answer. A call on a transaction touches its own enlistments alone.
#![tactic(auto)]

mod counts;
mod enlistments;
mod group;
mod groups;
mod standing;
mod telling;

pub use counts::Counts;
pub use enlistments::Enlistments;
