//! What an image stands for: its snapshot is read, and each group of its log is applied in place to the state of the snapshot,
//! up to the durable state that a machine starts from. It has the place of each byte on the pages of the image.
#![tactic(auto)]

mod durable;
mod laws;
mod lying;
mod meaning;
mod naming;
mod own;
mod reading;
mod replay;

pub use durable::Durable;
pub use ktm_replayed::DurableParts;
pub use laws::{
    law_of_bad_images, law_of_bad_places, law_of_journals, law_of_new_images, law_of_states,
};
pub use replay::{Loaded, load};
