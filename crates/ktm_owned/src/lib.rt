//! Laws of what undecided transactions own of keys and files: each is the contract of a function that does nothing.
#![tactic(auto)]

mod owned;

pub use owned::{law_of_files_kept, law_of_own_keys};
