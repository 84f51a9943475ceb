//! A list in order, through the places of a slab, whose keys name one value ever, and a map from names. Both take no
//! memory for what comes once its place is reserved.
#![tactic(auto)]

mod block;
mod chains;
mod entry;
mod index;
mod keys;
mod list;
mod name;
mod named;
mod order;
mod search;
mod walk;

pub use chains::Chains;
pub use index::{first_from, first_under, key_under};
pub use list::{Key, List};
pub use name::{InlineName, Name, long_bytes, number_bytes};
pub use walk::{EntryRef, Walk};
