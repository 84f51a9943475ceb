//! Lists of values under keys, by rising key: where a key stands is found by halves, and one above all others at once.
#![tactic(auto)]

mod keyed;

pub use keyed::{Keyed, KeyedList, Slot, is_rising, slot_of};
