//! Worked rows: how many steps the walks of a transaction's end take where it has three open files, two enlistments, four changes
//! and four settings, beside what another one has. Each row is the contract of a function that makes the walk.
#![tactic(auto)]

mod rows;

pub use rows::{row_of_changes, row_of_enlistments, row_of_open_files, row_of_settings};
