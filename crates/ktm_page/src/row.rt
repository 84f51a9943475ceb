// A row of pages on a disk.
ghost use Rattle.std.specs.Prelude.{◌≡◌, ℕ, ◌*◌, ◌<◌, Option, length, IfSome, OnErr, OnOk, is_err};
ghost use Rattle.ktm_base.specs.declared.limits.TheConstants.{UNIT_BYTES};
ghost use Rattle.ktm_base.specs.Disk.{DeviceCalls, DiskStatus};
ghost use Rattle.ktm_base.specs.Told.{Goes};
ghost use Rattle.ktm_page.specs.Row.{RowState, WrotePage, LostPage, page_of};

use ktm_base::Down;

/// A row of pages of 4,096 bytes on a disk. What was written since the disk's last sync may be lost with the power, and no more. Down comes
/// only where the disk was down at entry or its count of downs rose in the call.
pub trait PageIo {
    /// The bytes of the pages, those that a loss of power may take, and what stands in front of them, where the disk tells.
    ghost told: { Self → Option RowState };

    /// The power of its disk, and the counts.
    ghost status: { Self → DiskStatus };

    /// How many pages there are.
    ghost count: { Self → ℕ };

    /// The one is the other after calls: it lies over the same disk, of which what is no page of the row stays.
    ghost keeps: { Self → Self → Type 0 };

    /// Fills the buffer with the bytes of the page.
    fn read_page(&mut self, page: u32, buf: &mut [u8; 4096]) -> Result<(), Down>
        requires { page < count self.old }
        ensures value { OnOk result (IfSome (told self.old) (λ r. buf.new ≡ page_of r.seen page)) }
        ensures same { told self.new ≡ told self.old }
        ensures count { count self.new ≡ count self.old }
        ensures keeps { keeps self.old self.new }
        ensures calls { DeviceCalls 2 (status self.old) (status self.new) (is_err result) };

    /// Writes over the page. Where it answers Down the page may hold anything.
    fn write_page(&mut self, page: u32, bytes: &[u8; 4096]) -> Result<(), Down>
        requires { page < count self.old }
        ensures ok { OnOk result (Goes (WrotePage page bytes.now) (told self.old) (told self.new)) }
        ensures err { OnErr result (Goes (LostPage page) (told self.old) (told self.new)) }
        ensures count { count self.new ≡ count self.old }
        ensures keeps { keeps self.old self.new }
        ensures calls { DeviceCalls 2 (status self.old) (status self.new) (is_err result) };

    /// The bytes are those of the pages.
    ghost lengths: { (row : Self) → IfSome (told row) (λ r. length r.seen ≡ count row * UNIT_BYTES) };

    /// After no call it is what it was.
    ghost keeps_none: { (row : Self) → keeps row row };

    /// One call may follow another.
    ghost keeps_then: { (first next last : Self) → keeps first next → keeps next last → keeps first last };
}
