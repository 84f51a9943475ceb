//! The calls on files: each is refused, or planned, by the files that its caller sees and by what others hold.
#![tactic(auto)]

mod along;
mod call;
mod caller;
mod create;
mod directory;
mod forms;
mod handle;
mod modes;
mod moves;
mod plan;
mod remove;
mod search;
mod view;
mod volume;

pub use call::{FileCall, Room};
pub use forms::decide;
pub use handle::{read_refusal, set_end_refusal, write_refusal};
pub use plan::Plan;
pub use txf_opens::OpenFile;
pub use view::Seen;
pub use volume::Volume;
