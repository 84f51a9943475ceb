//! The committed files that the log of an image comes to, while it is read, what is told of the changes that
//! transactions record in it, and what those that wait hold of the files.
#![tactic(auto)]

mod acts;
mod counts;
mod files;
mod numbers;
mod recorded;
mod tried;
mod waiting;
mod written;

pub use acts::{is_file_seen, place_seen};
pub use counts::{name_changes, units_given};
pub use files::{DurableFiles, FilesRead};
pub use numbers::FileNumbers;
pub use recorded::are_recorded_changes;
pub use waiting::Waiting;
