//! The machine: its memory, its pages, and its journal on a disk. A call is decided on what is in memory, its events are recorded as
//! one group, and only then the memory is changed. Memory has the places of bytes; here they are bytes again, and the machine stands for
//! a world.
//! A disk without a byte becomes a new image, and the machine starts from it.
#![tactic(auto)]

mod buffers;
mod fault;
mod kernel;
mod laws;
mod open;
mod restart;
mod staging;

pub use buffers::Buffers;
pub use fault::OpenFault;
pub use kernel::Kernel;
pub use ktm_core::{law_of_bad_images, law_of_journals, law_of_new_images, load};
pub use laws::{law_of_power, law_of_what_is_found, law_of_what_is_left};
pub use open::open_kernel;
pub use restart::{RestartFault, Restarted};
