//! That a change of the bytes of a file counts by its result alone: the contract of a function that does nothing.
#![tactic(auto)]

mod replaced;

pub use replaced::law_of_replaced_files;
