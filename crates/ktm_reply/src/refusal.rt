// The names of refusals.
ghost use Rattle.std.specs.Prelude.{◌≡◌};
ghost use Rattle.ktm_reply.specs.Reading.{refusal_named};
ghost use Rattle.ktm_reply.specs.Refusals.{refusal_name};

use ktm_base::Refusal;

const REFUSALS: [Refusal; 30] = [
    Refusal::BadLine,
    Refusal::MachineDown,
    Refusal::MachineUp,
    Refusal::InvalidHandle,
    Refusal::HandleNoLongerValid,
    Refusal::TransactionAlreadyCommitted,
    Refusal::TransactionAlreadyAborted,
    Refusal::TransactionNotActive,
    Refusal::EnlistmentNotSuperior,
    Refusal::TransactionRequestNotValid,
    Refusal::InvalidParameter,
    Refusal::InvalidName,
    Refusal::TransactionNotFound,
    Refusal::ResourceManagerNotFound,
    Refusal::EnlistmentNotFound,
    Refusal::NotFound,
    Refusal::PathNotFound,
    Refusal::FileNotFound,
    Refusal::FileExists,
    Refusal::AlreadyExists,
    Refusal::TransactionSuperiorExists,
    Refusal::AccessDenied,
    Refusal::Directory,
    Refusal::DirNotEmpty,
    Refusal::TransactionalConflict,
    Refusal::SharingViolation,
    Refusal::WaitTimeout,
    Refusal::NotEnoughQuota,
    Refusal::DiskFull,
    Refusal::ImageWorn,
];

pub fn refusal_name(refusal: Refusal) -> &'static [u8]
    ensures { result.now ≡ refusal_name refusal }
{
    match refusal {
        Refusal::BadLine => b"BAD_LINE",
        Refusal::MachineDown => b"MACHINE_DOWN",
        Refusal::MachineUp => b"MACHINE_UP",
        Refusal::InvalidHandle => b"ERROR_INVALID_HANDLE",
        Refusal::HandleNoLongerValid => b"ERROR_HANDLE_NO_LONGER_VALID",
        Refusal::TransactionAlreadyCommitted => b"ERROR_TRANSACTION_ALREADY_COMMITTED",
        Refusal::TransactionAlreadyAborted => b"ERROR_TRANSACTION_ALREADY_ABORTED",
        Refusal::TransactionNotActive => b"ERROR_TRANSACTION_NOT_ACTIVE",
        Refusal::EnlistmentNotSuperior => b"ERROR_ENLISTMENT_NOT_SUPERIOR",
        Refusal::TransactionRequestNotValid => b"ERROR_TRANSACTION_REQUEST_NOT_VALID",
        Refusal::InvalidParameter => b"ERROR_INVALID_PARAMETER",
        Refusal::InvalidName => b"ERROR_INVALID_NAME",
        Refusal::TransactionNotFound => b"ERROR_TRANSACTION_NOT_FOUND",
        Refusal::ResourceManagerNotFound => b"ERROR_RESOURCEMANAGER_NOT_FOUND",
        Refusal::EnlistmentNotFound => b"ERROR_ENLISTMENT_NOT_FOUND",
        Refusal::NotFound => b"ERROR_NOT_FOUND",
        Refusal::PathNotFound => b"ERROR_PATH_NOT_FOUND",
        Refusal::FileNotFound => b"ERROR_FILE_NOT_FOUND",
        Refusal::FileExists => b"ERROR_FILE_EXISTS",
        Refusal::AlreadyExists => b"ERROR_ALREADY_EXISTS",
        Refusal::TransactionSuperiorExists => b"ERROR_TRANSACTION_SUPERIOR_EXISTS",
        Refusal::AccessDenied => b"ERROR_ACCESS_DENIED",
        Refusal::Directory => b"ERROR_DIRECTORY",
        Refusal::DirNotEmpty => b"ERROR_DIR_NOT_EMPTY",
        Refusal::TransactionalConflict => b"ERROR_TRANSACTIONAL_CONFLICT",
        Refusal::SharingViolation => b"ERROR_SHARING_VIOLATION",
        Refusal::WaitTimeout => b"WAIT_TIMEOUT",
        Refusal::NotEnoughQuota => b"ERROR_NOT_ENOUGH_QUOTA",
        Refusal::DiskFull => b"ERROR_DISK_FULL",
        Refusal::ImageWorn => b"IMAGE_WORN",
    }
}

// The refusal with this name.
#[tactic(auto, unfolding(crate::specs::Reading::refusal_named))]
pub fn refusal_named(text: &[u8]) -> Option<Refusal>
    ensures { result ≡ refusal_named text.now }
{
    REFUSALS
        .iter()
        .copied()
        .find(|refusal| refusal_name(*refusal) == text)
}
