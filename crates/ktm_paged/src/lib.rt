//! What is recorded with the pages of contents means, as a change of the model: the place of each byte on them.
#![tactic(auto)]

mod laws;
mod meaning;

pub use laws::{law_of_paged_records, law_of_records};
pub use meaning::{meant, pages_of};
