//! What the steps of a transaction record, known before anything is carried out, and whether its files and keys commit by
//! them.
#![tactic(auto)]

mod laws;
mod moved;
mod parts;

pub use laws::law_of_pages;
pub use moved::{commits, is_undecided, records_files};
pub use parts::{Enlisted, Parts};
