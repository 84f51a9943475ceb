//! The notifications that wait for resource managers: a queue for each, first in, first out.
#![tactic(auto)]

mod note;
mod queues;

pub use note::Note;
pub use queues::Queues;
