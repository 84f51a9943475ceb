// Why a call was not done.
use ktm_base::Refusal;
use std::error::Error;
use std::fmt;

/// Why a call was not done.
#[derive(Clone, Copy, PartialEq, Eq)]
pub enum Failure {
    /// The machine refused it.
    Refused(Refusal),
    /// Out of memory. Nothing has changed.
    NoMemory,
    /// The image has recorded nearly 2^63 events, and one call more might pass that count: the machine was not asked, and nothing has
    /// changed. Each further call says so too. Once the machine is closed, the image is not opened again.
    Worn,
}

/// Why a call on the way to the end of a transaction was not done, or no time has passed. These take no memory.
#[derive(Clone, Copy, PartialEq, Eq)]
pub enum CompletionFault {
    /// The machine refused it.
    Refused(Refusal),
    /// The image has recorded nearly 2^63 events, as in `Failure::Worn`. Nothing has changed.
    Worn,
}

impl From<CompletionFault> for Failure {
    ghost use Rattle.std.specs.Prelude.{◌≡◌};
    ghost use Rattle.wattorju.specs.Calls.{failure_of};

    ghost from_gives = { λ fault failure. failure ≡ failure_of fault };

    fn from(fault: CompletionFault) -> Self {
        match fault {
            CompletionFault::Refused(refusal) => Failure::Refused(refusal),
            CompletionFault::Worn => Failure::Worn,
        }
    }
}

// What is said of an image whose count of events is near its end.
const WORN: &str = "the image has recorded nearly 2^63 events; it is closed and not opened again";

// A refusal in words.
fn words_of(refusal: Refusal) -> &'static str {
    match refusal {
        Refusal::BadLine => "not a line of the grammar",
        Refusal::MachineDown => "the machine is down",
        Refusal::MachineUp => "the machine is up",
        Refusal::InvalidHandle => "the handle is not valid",
        Refusal::HandleNoLongerValid => "the file's transaction is over, or the file is gone",
        Refusal::TransactionAlreadyCommitted => "the transaction has committed",
        Refusal::TransactionAlreadyAborted => "the transaction has rolled back",
        Refusal::TransactionNotActive => "the transaction is on its way to an outcome",
        Refusal::EnlistmentNotSuperior => "the enlistment is no superior",
        Refusal::TransactionRequestNotValid => "the transaction does not allow the call now",
        Refusal::InvalidParameter => "a value is out of its range",
        Refusal::InvalidName => "not a path, or not a pattern",
        Refusal::TransactionNotFound => "no live transaction has this GUID",
        Refusal::ResourceManagerNotFound => "no resource manager has this GUID",
        Refusal::EnlistmentNotFound => "no live enlistment has this GUID",
        Refusal::NotFound => "no such key",
        Refusal::PathNotFound => "no such directory on the way",
        Refusal::FileNotFound => "no such file or directory",
        Refusal::FileExists => "the file exists",
        Refusal::AlreadyExists => "the name is in use",
        Refusal::TransactionSuperiorExists => "the transaction has a superior",
        Refusal::AccessDenied => "access is denied",
        Refusal::Directory => "not a directory",
        Refusal::DirNotEmpty => "the directory has entries",
        Refusal::TransactionalConflict => "another transaction stands in the way",
        Refusal::SharingViolation => "an open file's share mode stands in the way",
        Refusal::WaitTimeout => "no notification waits",
        Refusal::NotEnoughQuota => "a limit on objects, handles or changes is reached",
        Refusal::DiskFull => "a limit on contents, files or keys is reached",
        Refusal::ImageWorn => "the image is worn",
    }
}

impl fmt::Display for Failure {
    fn fmt<W: fmt::Write>(&self, f: &mut fmt::Formatter<W>) -> fmt::Result {
        match self {
            Failure::Refused(refusal) => f.write_str(words_of(*refusal)),
            Failure::NoMemory => f.write_str("out of memory"),
            Failure::Worn => f.write_str(WORN),
        }
    }
}

impl fmt::Debug for Failure {
    fn fmt<W: fmt::Write>(&self, f: &mut fmt::Formatter<W>) -> fmt::Result {
        write!(f, "Failure({self})")
    }
}

impl Error for Failure {}

impl fmt::Display for CompletionFault {
    fn fmt<W: fmt::Write>(&self, f: &mut fmt::Formatter<W>) -> fmt::Result {
        match self {
            CompletionFault::Refused(refusal) => f.write_str(words_of(*refusal)),
            CompletionFault::Worn => f.write_str(WORN),
        }
    }
}

impl fmt::Debug for CompletionFault {
    fn fmt<W: fmt::Write>(&self, f: &mut fmt::Formatter<W>) -> fmt::Result {
        write!(f, "CompletionFault({self})")
    }
}

impl Error for CompletionFault {}
