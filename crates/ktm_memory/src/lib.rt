//! What the machine holds in memory, its journal with it: a call whose labels are known is decided by the layer that it belongs
//! to, its events are recorded as one group, with the pages of contents, and once they are what was left to do is done.
#![tactic(auto)]

mod commit;
mod course;
mod decide;
mod decide_course;
mod enlistments;
mod extent;
mod files;
mod managers;
mod memory;
mod pages;
mod record;
mod routed;
mod settle;
mod settlement;
mod uncounted;
mod undone;

pub use extent::Extent;
pub use memory::Memory;
pub use routed::Routed;
pub use settlement::{Labels, Settlement};
pub use txf_volume::Written;
