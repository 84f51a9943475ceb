//! The committed files and directories: nodes by number, children by directory and folded name, the content of each file on its
//! pages and how often it changed.
#![tactic(auto)]

mod change;
mod node_ref;
mod nodes;
mod tree;

pub use change::{bytes_in, changes_bytes, is_drop, is_make, is_whole, next_after, node_of};
pub use node_ref::NodeRef;
pub use nodes::Nodes;
pub use tree::{Children, Tree};
pub use txf_nodes::{
    ChildName, Entries, Entry, NumberName, after_place, child_name, is_name, is_node_number,
    listed_names, number_bytes,
};
