//! The pages of an image: which are free, which are on the disk, and which are in memory, with their bytes. What changes of contents is made
//! on pages that were free.
#![tactic(auto)]

mod change;
mod frames;
mod marks;
mod owners;
mod store;
mod stored;
mod units;

pub use marks::Marks;
pub use store::{Store, law_of_rows};
pub use stored::Stored;
