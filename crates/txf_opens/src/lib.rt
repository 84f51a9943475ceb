//! The open files, and what their share modes let others do; what a call does, by which others may refuse it.
#![tactic(auto)]

mod act;
mod file;
mod index;
mod name;
mod opens;
mod uses;

pub use act::{Act, Place};
pub use file::{OpenFile, asks_write, lets_read, lets_write, reads, writes};
pub use opens::Opens;
