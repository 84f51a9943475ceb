//! What each undecided transaction holds of the files by its changes, and whether a call meets it.
#![tactic(auto)]

mod act;
mod check;
mod name;
mod pairs;
mod reserve;

pub use act::Held;
pub use reserve::Reserve;
