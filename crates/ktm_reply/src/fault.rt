// Why a reply was not read.
ghost use Rattle.std.specs.Prelude.{◌≡◌};

use ktm_base::NoMemory as OutOfMemory;
use thiserror::Error;

/// Why a reply was not read.
#[derive(Clone, Copy, Debug, PartialEq, Eq, Error)]
pub enum ReplyFault {
    /// It is not the spelling of a reply.
    #[error("not a reply")]
    NotAReply,
    /// Memory was wanted and not to be had.
    #[error("out of memory")]
    NoMemory,
}

impl From<OutOfMemory> for ReplyFault {
    ghost use Rattle.ktm_reply.specs.declared.fault.ReplyFault.TheVariants.{NoMemory};

    ghost from_gives = { λ _ fault. fault ≡ NoMemory };

    fn from(_: OutOfMemory) -> Self {
        ReplyFault::NoMemory
    }
}
