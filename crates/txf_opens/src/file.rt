// An open file, and what its access and its share mode include.
ghost use Rattle.std.specs.Prelude.{◌≡◌, ◌||◌};
ghost use Rattle.ktm_world.specs.Conflicts.{lets_read, lets_write, reads, same_group, writes};

use ktm_base::Id;
use ktm_world::{Access, ShareMode};

/// An open file; a plain one has no transaction.
#[derive(Clone, Copy)]
pub struct OpenFile {
    /// It counts from 1 in each boot, and is never used again in that boot.
    pub number: u32,
    pub node: u64,
    pub transaction: Option<Id>,
    pub access: Access,
    pub share: ShareMode,
}

/// Does the access include reading.
pub fn reads(access: Access) -> bool
    ensures { result ≡ reads access }
{
    match access {
        Access::Read => true,
        Access::Write => false,
        Access::ReadWrite => true,
    }
}

/// Does the access include writing.
pub fn writes(access: Access) -> bool
    ensures { result ≡ writes access }
{
    match access {
        Access::Read => false,
        Access::Write => true,
        Access::ReadWrite => true,
    }
}

/// Does an open ask for write access: it may write, or it empties the file.
pub fn asks_write(access: Access, truncates: bool) -> bool
    ensures { result ≡ (writes access || truncates) }
{
    writes(access) || truncates
}

/// Does the share mode let others read.
pub fn lets_read(share: ShareMode) -> bool
    ensures { result ≡ lets_read share }
{
    match share {
        ShareMode::Nothing => false,
        ShareMode::Read => true,
        ShareMode::Write => false,
        ShareMode::ReadWrite => true,
    }
}

/// Does the share mode let others write.
pub fn lets_write(share: ShareMode) -> bool
    ensures { result ≡ lets_write share }
{
    match share {
        ShareMode::Nothing => false,
        ShareMode::Read => false,
        ShareMode::Write => true,
        ShareMode::ReadWrite => true,
    }
}

/// Are both plain, or both of one transaction.
pub(crate) fn is_same_group(a: Option<Id>, b: Option<Id>) -> bool
    ensures { result ≡ same_group a b }
{
    match (a, b) {
        (None, None) => true,
        (None, Some(_)) => false,
        (Some(_), None) => false,
        (Some(a), Some(b)) => a == b,
    }
}
