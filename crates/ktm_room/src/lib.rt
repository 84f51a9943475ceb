//! Laws of what fits an image: what one command records fits an empty log, and a durable state the area of a snapshot. Each is the contract of a function that does nothing.
#![tactic(auto)]

mod room;

pub use room::{law_of_frames, law_of_snapshots};
