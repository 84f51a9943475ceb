//! The outside in memory: a source, a sink, a block device and a disk that tell their contents. Each is made with the
//! numbers of the calls that fail, counted from 1, and takes its memory when it is made.
#![tactic(auto)]

mod block;
mod contents;
mod disk;
mod schedule;
mod sink;
mod source;
mod supply;

pub use block::MemBlock;
pub use disk::MemDisk;
pub use schedule::Calls;
pub use sink::MemSink;
pub use source::MemSource;
