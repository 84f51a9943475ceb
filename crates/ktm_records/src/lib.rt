//! Laws of what a machine records: it agrees with what is so now, applies, and can be spelled: each is the contract of a function that does nothing.
#![tactic(auto)]

mod agreement;
mod records;

pub use agreement::law_of_agreement;
pub use records::{
    law_of_file_calls, law_of_made_managers, law_of_recorded_facts, law_of_recordings,
    law_of_rollbacks, law_of_spelling,
};
