//! The resource managers, by rising Id, with the notifications that wait for each.
#![tactic(auto)]

mod durable;
mod managers;
mod order;

pub use durable::DurableManagers;
pub use managers::Managers;
pub use order::order_of;
