//! Pages: the row of them that an image has, as a trait with what may be relied on, and the trait of what knows which of them are out.
#![tactic(auto)]

mod row;
mod space;

pub use ktm_base::{NoMemory, PageList, UNIT_BYTES};
pub use row::PageIo;
pub use space::PageSpace;
