//! Contents of files on pages, which contracts see as the places of their bytes in a row of pages: one that changes, one that stays
//! as it is, and one that is lent.
#![tactic(auto)]

mod content;
mod lent;
mod placed;

pub use content::Content;
pub use lent::PlacedRef;
pub use placed::Placed;
