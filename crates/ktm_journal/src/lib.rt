//! The journal: the groups of events in an image on a disk. An image is made once, and then a group is added at a time;
//! a loss of power leaves each group that was answered, and the one that was being added or not. It knows the bytes that
//! spell groups, and no state that they come to. Behind the groups stand pages, which it reads and writes.
#![tactic(auto)]

mod fault;
mod half;
mod header;
mod image;
mod journal;
mod laws;
mod snapshot;

pub use fault::LoadFault;
pub use header::Header;
pub use image::page_count;
pub use journal::Journal;
pub use ktm_log::AppendFault;
pub use laws::{law_of_pages, law_of_what_is_left};
pub use snapshot::{empty_snapshot, read_snapshot};
