//! A log in an area of a disk: a row of frames, each with a payload of any bytes, and a closed gate behind them. An
//! append opens the gate of a frame only when its body is safe, so a loss of power leaves the payloads that were
//! there, with the new one or without it.
#![tactic(auto)]

mod area;
mod fault;
mod frame;
mod laws;
mod load;
mod log;
mod settling;

pub use area::Area;
pub use fault::{AppendFault, LogFault};
pub use frame::{first_payload, frame_len};
pub use laws::{law_of_bad_logs, law_of_logs, law_of_one_kind, law_of_some_kind};
pub use log::Log;
pub use settling::settle;
