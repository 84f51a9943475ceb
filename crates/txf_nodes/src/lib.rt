//! Files and directories: nodes by number, and children by directory and folded name. What a file contains is a type
//! parameter, and each node counts how often that was changed.
#![tactic(auto)]

mod applies;
mod by_number;
mod children;
mod entry;
mod hints;
mod listed;
mod name;
mod nodes;
mod stored;
mod table;

pub use applies::{is_name, is_node_number};
pub use by_number::ByNumber;
pub use children::Children;
pub use entry::{Entries, Entry};
pub use listed::listed_names;
pub use name::{ChildName, NumberName, after_place, child_name, number_bytes};
pub use stored::StoredNode;
pub use table::NodeTable;
