// How a run ends.
ghost use Rattle.std.specs.Prelude.{◌≡◌};
ghost use Rattle.ktm_run.specs.Status.{exit_code_of};

/// How a run ended. All but the first two end it early.
#[derive(Clone, Copy, Debug, PartialEq, Eq)]
pub enum Status {
    /// The script is at its end, and each of its lines was answered.
    Done,
    /// The words are of no form.
    Usage,
    /// The script could not be read.
    SourceFault,
    /// The sink failed: at the start, or at a line.
    SinkFault,
    /// Out of memory.
    NoMemory,
    /// The image cannot be opened.
    BadImage,
    /// The disk had no power before the machine was up.
    DiskFault,
    /// The script goes on behind its greatest length. The lines that ended before it were answered.
    ScriptTooLong,
    /// The image counts 2^32 - 2 boots or more, or 2^62 events or more: no machine starts from it.
    Worn,
}

impl Status {
    pub fn exit_code(self) -> u8
        ensures { result ≡ exit_code_of self }
    {
        match self {
            Status::Done => 0,
            Status::Usage => 1,
            Status::SourceFault => 2,
            Status::SinkFault => 3,
            Status::NoMemory => 4,
            Status::BadImage => 5,
            Status::DiskFault => 6,
            Status::ScriptTooLong => 7,
            Status::Worn => 9,
        }
    }
}
