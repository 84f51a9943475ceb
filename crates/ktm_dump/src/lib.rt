//! The text of a durable state, written to any sink: a line for each thing that outlives a loss of power.
#![tactic(auto)]

mod laws;
mod line;
mod state;
mod value;
mod waiting;
mod write;

pub use laws::{law_of_texts, law_of_worked_texts};
pub use line::LAYOUT;
pub use state::write_state;
pub use write::{write_all, write_line};
