//! Laws of whole worlds: each is the contract of a function that does nothing.
#![tactic(auto)]

mod worlds;

pub use ktm_limits::law_of_limits;
pub use worlds::{
    law_of_lawful_worlds, law_of_notes, law_of_one_outcome, law_of_reserved_files,
    law_of_sound_worlds,
};
