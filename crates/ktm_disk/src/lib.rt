//! A disk over a block device, for programs: it passes each call to the block, and goes down where the block fails. And
//! what disks over blocks tell and count, which this one shares with those whose power can be cut.
#![tactic(auto)]

mod disk;
mod power;

pub use disk::{BlockDisk, length_after_sync};
