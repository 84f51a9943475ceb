//! The pages of an image over its disk, and the same pages through a cache.
#![tactic(auto)]

mod cached;
mod laws;
mod place;
mod row;

pub use cached::CachedRow;
pub use laws::{law_of_the_whole, law_of_what_is_left};
pub use row::Row;
