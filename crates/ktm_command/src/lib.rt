//! The command line: which word names which file, and with which number the program ends.
#![tactic(auto)]

mod command;
mod files;

pub use command::{exit_code, outcome, run};
