//! The program but for its edges: its words, the loop over a script, what makes an image new and what writes its state, and the
//! status that it ends with.
#![tactic(auto)]

mod answer;
mod dump;
mod fault;
mod form;
mod format;
mod generated;
mod image;
mod laws;
mod line;
mod program;
mod script;
mod status;
mod tally;

pub use form::{Form, form_of};
pub use program::ktm;
pub use status::Status;
