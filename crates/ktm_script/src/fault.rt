// Why a line was not read.
ghost use Rattle.std.specs.Prelude.{◌≡◌};

use ktm_base::NoMemory as OutOfMemory;
use std::alloc::AllocError;
use thiserror::Error;

/// Why a line was not read.
#[derive(Clone, Copy, Debug, PartialEq, Eq, Error)]
pub enum LineFault {
    /// It is not the spelling of a line.
    #[error("bad line")]
    BadLine,
    /// Memory was wanted and not to be had.
    #[error("out of memory")]
    NoMemory,
}

impl From<OutOfMemory> for LineFault {
    ghost use Rattle.ktm_script.specs.declared.fault.LineFault.TheVariants.{NoMemory};

    ghost from_gives = { λ _ fault. fault ≡ NoMemory };

    fn from(_: OutOfMemory) -> Self {
        LineFault::NoMemory
    }
}

impl From<AllocError> for LineFault {
    ghost use Rattle.ktm_script.specs.declared.fault.LineFault.TheVariants.{NoMemory};

    ghost from_gives = { λ _ fault. fault ≡ NoMemory };

    fn from(_: AllocError) -> Self {
        LineFault::NoMemory
    }
}
