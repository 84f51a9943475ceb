//! The outside of the program: a source over a file, a block device over a file, a disk over that, and a sink over
//! standard output. Source, sink and block count each failure, and nothing else. No contract can say what a file of the
//! system holds; but what a block asks of its file, and what it makes of the answers, is proved over any file.
#![tactic(auto)]

mod access;
mod block;
mod count;
mod disk;
mod image;
mod image_file;
mod interrupted;
mod late_file;
mod sink;
mod source;

pub use block::FileBlock;
pub use disk::{FileDisk, open_disk};
pub use image_file::ImageFile;
pub use late_file::LateFile;
pub use sink::StdSink;
pub use source::FileSource;
