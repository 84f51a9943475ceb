//! Laws of changes of a tree, of what transactions own and hold of the files, and of durable states: each is the contract of a
//! function that does nothing.
#![tactic(auto)]

mod changes;
mod files;
mod states;

pub use changes::{
    law_of_diamonds, law_of_final_changes, law_of_forms, law_of_lists, law_of_meetings,
};
pub use files::{
    law_of_first_openings, law_of_openings, law_of_own_changes, law_of_plain_changes,
    law_of_reservations,
};
pub use states::{law_of_good_states, law_of_grammar, law_of_own_groups};
