//! Laws of transactions on their way, with their enlistments, resource managers and handles: each is the contract of a function that does nothing.
#![tactic(auto)]

mod courses;

pub use courses::{law_of_courses, law_of_kept_outcomes, law_of_named_objects};
