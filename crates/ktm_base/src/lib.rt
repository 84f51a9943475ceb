//! What every layer names: processes, the labels of handles, identifiers and their GUIDs, refusals and small lists. And
//! the traits of the outside, with what each may be relied on for: a source of bytes, a sink, a block device, a disk
//! that loses power, and one whose power can be cut and given back.
#![tactic(auto)]

mod block;
mod disk;
mod fault;
mod guids;
mod id;
mod laws;
mod limits;
mod lists;
mod names;
mod notify;
mod order;
mod power;
mod reading;
mod refusal;
mod sink;
mod source;
mod texts;

pub use block::Block;
pub use disk::Disk;
pub use fault::{Down, Failed, NoMemory};
pub use guids::{guid, id_of};
pub use id::{Id, Label, ObjectKind, Pid};
pub use laws::{
    law_of_calls, law_of_ensure, law_of_ensure_refused, law_of_power, law_of_sync,
    law_of_two_writes, law_of_what_is_safe, law_of_what_is_seen, law_of_write,
    law_of_write_refused,
};
pub use limits::{
    END_OF_NODES, LEAST_UNITS, MOST_AT_ONCE, MOST_HANDLES, MOST_INFORMATION_BYTES, MOST_KEY_BYTES,
    MOST_LINE_BYTES, MOST_LIVE, MOST_NAME_BYTES, MOST_NUMBER, MOST_PARTS, MOST_PENDING,
    MOST_PROCESS, MOST_SCRIPT_BYTES, MOST_UNITS, MOST_VALUE_BYTES, NEW_UNITS, UNIT_BYTES,
};
pub use lists::{Bytes, Items, PageList, Text};
pub use names::fold;
pub use notify::Notify;
pub use order::compare;
pub use power::{PowerCall, PowerDisk};
pub use reading::{read_at, read_if};
pub use refusal::Refusal;
pub use sink::Sink;
pub use source::Source;
pub use texts::{TextList, Texts};
