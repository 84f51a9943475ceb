//! The transactions that a log has left undecided or unfinished, while it is read, and the durable resource managers: what
//! waits in their parts, what that holds of the files, and how much it takes.
#![tactic(auto)]

mod amounts;
mod beside;
mod holds;
mod managers;
mod parts;
mod table;
mod transactions;

pub use amounts::{Amounts, enlistments_of, fits_in, limits, without};
pub use beside::{others_change, others_set};
pub use holds::{hold_changes, release_changes, release_ready};
pub use managers::{Managers, is_before};
pub use parts::{
    changes_in, changes_of, has_part, has_part_of, has_undone_part, is_decided, is_held,
    is_part_of, is_ready, settings_of,
};
pub use table::has_undone;
pub use transactions::Transactions;
