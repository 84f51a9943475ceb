//! Which pages of an image are out, and a cache of pages that were read or written.
#![tactic(auto)]

mod cache;
mod pages;

pub use cache::Cache;
pub use pages::Pages;
