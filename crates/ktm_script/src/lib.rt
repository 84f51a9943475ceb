//! Reads and writes the lines of scripts. A line of the grammar has one spelling, and what is not that of a line is a bad
//! line.
#![tactic(auto)]

mod arguments;
mod command;
mod fault;
mod form;
mod laws;
mod line;
mod parts;
mod put;
mod word;
mod write;

pub use fault::LineFault;
pub use laws::law_of_worked_lines;
pub use line::{law_of_one_meaning, read_line};
pub use write::{law_of_round_trip, write_line};
