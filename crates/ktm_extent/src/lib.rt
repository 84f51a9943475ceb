//! Contents of a file as a list of pages that are copied on write.
#![tactic(auto)]

mod extent;
mod fault;
mod holders;
mod rewrite;
mod unit;

pub use extent::Extent;
pub use fault::ExtentFault;
