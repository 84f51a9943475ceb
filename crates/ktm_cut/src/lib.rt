//! A disk over a block device, whose power can be cut and given back. It remembers which bytes were written or added
//! since the last sync. When the power comes back, a number decides what is left of each such range: what was written,
//! zeros, drawn bytes, or half of what was written.
#![tactic(auto)]

mod disk;
mod settle;
mod switch;

pub use disk::CutDisk;
