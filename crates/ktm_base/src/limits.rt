// The limits of the system, each said once: code and definitions name them.

/// The fewest units that an image may have.
pub const LEAST_UNITS: u32 = 16;

/// The most units that an image may have.
pub const MOST_UNITS: u32 = 16_384;

/// The units of an image that is made where there is none.
pub const NEW_UNITS: u32 = 1024;

/// The bytes of a unit, in which the room for files is counted.
pub const UNIT_BYTES: u64 = 4096;

/// The most transactions that may be live, the most enlistments, and the most resource managers.
pub const MOST_LIVE: usize = 64;

/// The most handles that all processes may have.
pub const MOST_HANDLES: usize = 4096;

/// The greatest number of an object of a kind, and of an open file, in a boot.
pub const MOST_NUMBER: u32 = u32::MAX;

/// Node numbers end below this.
pub const END_OF_NODES: u64 = 1 << 63;

/// The most bytes of one read or write.
pub const MOST_AT_ONCE: usize = 65_536;

/// The most bytes of a name, and of the last part of a pattern.
pub const MOST_NAME_BYTES: usize = 255;

/// The most names of a path, and the most parts of a pattern.
pub const MOST_PARTS: usize = 32;

/// The most bytes of a key.
pub const MOST_KEY_BYTES: usize = 64;

/// The most bytes of a value.
pub const MOST_VALUE_BYTES: usize = 960;

/// The most bytes of an enlistment's recovery information.
pub const MOST_INFORMATION_BYTES: usize = 128;

/// The greatest number of a process.
pub const MOST_PROCESS: u8 = 64;

/// The most bytes of a line of a script, its line end apart.
pub const MOST_LINE_BYTES: usize = 140_000;

/// The most bytes of a script: 64 MiB.
pub const MOST_SCRIPT_BYTES: u64 = 67_108_864;

/// The most writes that a disk may have waiting for a sync.
pub const MOST_PENDING: usize = 64;
