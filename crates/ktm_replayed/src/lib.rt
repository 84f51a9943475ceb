//! The durable state in memory while an image is read, and what each event of its log makes of it: files, keys, resource managers
//! and transactions that wait are changed in place.
#![tactic(auto)]

mod own;
mod parts;
mod replayed;
mod settings;

pub use parts::DurableParts;
pub use replayed::Replayed;
pub use settings::settings_alone;
