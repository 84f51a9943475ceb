// Why nothing was read.
ghost use Rattle.std.specs.Prelude.{◌≡◌};

use ktm_base::NoMemory as OutOfMemory;
use std::alloc::{AllocError, AllocFailed};
use thiserror::Error;

/// Why no event was read.
#[derive(Clone, Copy, Debug, PartialEq, Eq, Error)]
pub enum EventFault {
    /// The bytes do not spell one.
    #[error("not an event")]
    NotAnEvent,
    /// Memory was wanted and not to be had.
    #[error("out of memory")]
    NoMemory,
}

impl From<OutOfMemory> for EventFault {
    ghost use Rattle.ktm_event.specs.declared.fault.EventFault.TheVariants.{NoMemory};

    ghost from_gives = { λ _ fault. fault ≡ NoMemory };

    fn from(_: OutOfMemory) -> Self {
        EventFault::NoMemory
    }
}

impl From<AllocError> for EventFault {
    ghost use Rattle.ktm_event.specs.declared.fault.EventFault.TheVariants.{NoMemory};

    ghost from_gives = { λ _ fault. fault ≡ NoMemory };

    fn from(_: AllocError) -> Self {
        EventFault::NoMemory
    }
}

impl<T: Drop> From<AllocFailed<T>> for EventFault {
    ghost use Rattle.ktm_event.specs.declared.fault.EventFault.TheVariants.{NoMemory};

    ghost from_gives = { λ _ fault. fault ≡ NoMemory };

    fn from(_: AllocFailed<T>) -> Self {
        EventFault::NoMemory
    }
}
