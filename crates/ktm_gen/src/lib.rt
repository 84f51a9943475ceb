//! The lines of a generated workload. A number chooses them: each nine lines are a transaction that writes a file and sets a
//! key, and after each sixteen of these the power goes.
#![tactic(auto)]

mod generator;
mod laws;
mod line;

pub use generator::{Generator, MOST_LINES};
pub use laws::law_of_worked_script;
pub use line::LONGEST_LINE;
