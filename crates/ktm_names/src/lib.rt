//! Reads paths and patterns, and matches names with patterns. A text is a path or a pattern in one way at most.
#![tactic(auto)]

mod fault;
mod lead;
mod list;
mod parts;
mod path;
mod pattern;
mod wildcard;

pub use fault::PathFault;
pub use parts::is_name;
pub use path::{Path, ROOT, law_of_one_path};
pub use pattern::{Pattern, law_of_one_pattern};
pub use wildcard::law_of_star;
