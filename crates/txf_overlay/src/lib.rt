//! What one transaction changed of the files: its changes in order, the bytes of the files that it wrote, and the view of
//! names and bytes over the committed tree.
#![tactic(auto)]

mod applies;
mod files;
mod laws;
mod listing;
mod maps;
mod names;
mod node;
mod overlay;
mod view;
mod written;

pub use laws::{law_of_other_trees, law_of_own_forms};
pub use overlay::Overlay;
pub use view::Seen;
pub use written::WrittenFile;
