// Why a script ended early.

/// Why a script ended before its end.
#[derive(Clone, Copy, Debug, PartialEq, Eq)]
pub enum RunFault {
    SinkFault,
    NoMemory,
}
