//! Which unit of which file each page of an image holds, while the image is read: a table by page, in which no page is given to a unit
//! while another one lies on it.
#![tactic(auto)]

mod contents;
mod owners;

pub use contents::{are_below, has_unit, lies_below};
pub use owners::{Named, Owner, Owners, is_same_unit};
