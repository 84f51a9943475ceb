//! Worlds that stand: what a machine keeps of them, whatever it does, and what it may rely on in them, as laws.
#![tactic(auto)]

mod laws;

pub use laws::{
    law_of_courses, law_of_decided, law_of_effects, law_of_files, law_of_fresh, law_of_guids,
    law_of_kept, law_of_named, law_of_spelled, law_of_standing, law_of_timeouts,
};
