//! The machine over the places of bytes, with the pages on which they are, and its disk: what was decided is recorded behind the pages that
//! it puts, and a start is recorded. No world is named here.
#![tactic(auto)]

mod machine;
mod owing;
mod pages;
mod reading;
mod recording;
mod starting;

pub use ktm_debts::law_of_debts;
pub use ktm_memory::{Extent, Memory};
pub use ktm_restart::{law_of_bad_images, law_of_journals, law_of_new_images, law_of_states, load};
pub use ktm_route::{Asked, command_of, end_target, law_of_completions, read_target, write_target};
pub use machine::Core;
pub use reading::{ReadFault, read_content};
pub use starting::{Starting, events_in, in_doubt, is_worn, prepare, record_start};
