// What dispositions include.
ghost use Rattle.std.specs.Prelude.{◌≡◌};
ghost use Rattle.ktm_world.specs.FileCalls.{empties, is_truncate_existing, wants_existing, wants_new};

use ktm_world::Disposition;

/// Does the call empty a file that is there.
pub(crate) fn empties(disposition: Disposition) -> bool
    ensures { result ≡ empties disposition }
{
    match disposition {
        Disposition::CreateAlways | Disposition::TruncateExisting => true,
        Disposition::CreateNew | Disposition::OpenExisting | Disposition::OpenAlways => false,
    }
}

/// Is the name to be there.
pub(crate) fn wants_existing(disposition: Disposition) -> bool
    ensures { result ≡ wants_existing disposition }
{
    match disposition {
        Disposition::OpenExisting | Disposition::TruncateExisting => true,
        Disposition::CreateNew | Disposition::CreateAlways | Disposition::OpenAlways => false,
    }
}

/// Is the name to be free.
pub(crate) fn wants_new(disposition: Disposition) -> bool
    ensures { result ≡ wants_new disposition }
{
    match disposition {
        Disposition::CreateNew => true,
        _ => false,
    }
}

/// Does it want access to write.
pub(crate) fn wants_write(disposition: Disposition) -> bool
    ensures { result ≡ is_truncate_existing disposition }
{
    match disposition {
        Disposition::TruncateExisting => true,
        _ => false,
    }
}
