// Why a path or a pattern was not read.
ghost use Rattle.std.specs.Prelude.{◌≡◌};

use ktm_base::NoMemory as OutOfMemory;
use std::alloc::AllocError;
use thiserror::Error;

/// Why a path or a pattern was not read.
#[derive(Clone, Copy, Debug, PartialEq, Eq, Error)]
pub enum PathFault {
    /// The text is none.
    #[error("not a path")]
    NotAPath,
    /// Memory was wanted and not to be had.
    #[error("out of memory")]
    NoMemory,
}

impl From<OutOfMemory> for PathFault {
    ghost use Rattle.ktm_names.specs.declared.fault.PathFault.TheVariants.{NoMemory};

    ghost from_gives = { λ _ fault. fault ≡ NoMemory };

    fn from(_: OutOfMemory) -> Self {
        PathFault::NoMemory
    }
}

impl From<AllocError> for PathFault {
    ghost use Rattle.ktm_names.specs.declared.fault.PathFault.TheVariants.{NoMemory};

    ghost from_gives = { λ _ fault. fault ≡ NoMemory };

    fn from(_: AllocError) -> Self {
        PathFault::NoMemory
    }
}
