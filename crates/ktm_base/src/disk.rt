// A disk that loses power.
ghost use Rattle.std.specs.Prelude.{◌≡◌, ℕ, ◌+◌, ◌<◌, ◌≤◌, Option, length, slice_range, IfOk, OnOk, OnErr, IsTrue, is_err, is_ok, if◌then◌else◌, false, IfSome};
ghost use Rattle.ktm_base.specs.declared.limits.TheConstants.{MOST_PENDING};
ghost use Rattle.ktm_base.specs.Told.{Goes};
ghost use Rattle.ktm_base.specs.Disk.{DiskState, DiskStatus, HasLengths, Wrote, WriteRefused, Synced, Grew, GrowthRefused, DeviceCall};

use crate::Down;

/// A disk whose power may go in any call. What was written since the last sync may then hold anything. Lengths and
/// offsets are in bytes. Down comes only where the disk was down at entry or its count of downs rose in the call;
/// from then on each call answers Down and changes nothing but the count of calls.
pub trait Disk {
    /// What a read sees and what a loss of power may leave, where the disk tells.
    ghost told: { Self → Option DiskState };

    /// Its power, and the counts.
    ghost status: { Self → DiskStatus };

    fn len(&mut self) -> Result<u64, Down>
        ensures value { IfOk result (λ n. IfSome (told self.old) (λ s. n ≡ length s.seen)) }
        ensures same { told self.new ≡ told self.old }
        ensures pending { (status self.new).pending ≡ (status self.old).pending }
        ensures call { DeviceCall (status self.old) (status self.new) (is_err result) };

    /// Fills the buffer. A disk that does not tell its bytes goes down where the range passes its end.
    fn read_at(&mut self, at: u64, buf: &mut [u8]) -> Result<(), Down>
        requires { IfSome (told self.old) (λ s. at + length buf.old ≤ length s.seen) }
        ensures value { OnOk result (IfSome (told self.old) (λ s. buf.new ≡ slice_range s.seen at (at + length buf.old))) }
        ensures same { told self.new ≡ told self.old }
        ensures pending { (status self.new).pending ≡ (status self.old).pending }
        ensures call { DeviceCall (status self.old) (status self.new) (is_err result) };

    /// Writes over what is there. Until a sync a loss of power may leave anything in the range.
    fn write_at(&mut self, at: u64, bytes: &[u8]) -> Result<(), Down>
        requires within { IfSome (told self.old) (λ s. at + length bytes.now ≤ length s.seen) }
        requires room { (status self.old).pending < MOST_PENDING }
        ensures ok { OnOk result (Goes (Wrote at bytes.now) (told self.old) (told self.new)) }
        ensures err { OnErr result ((status self.old).is_down ≡ false → Goes (WriteRefused at (length bytes.now)) (told self.old) (told self.new)) }
        ensures frozen { IsTrue (status self.old).is_down → told self.new ≡ told self.old }
        ensures pending { (status self.old).is_down ≡ false → (status self.new).pending ≡ (status self.old).pending + 1 }
        ensures call { DeviceCall (status self.old) (status self.new) (is_err result) };

    /// Makes what was written stay.
    fn sync(&mut self) -> Result<(), Down>
        ensures ok { OnOk result (Goes Synced (told self.old) (told self.new)) }
        ensures err { OnErr result (told self.new ≡ told self.old) }
        ensures pending { (status self.new).pending ≡ (if is_ok result then 0 else (status self.old).pending) }
        ensures call { DeviceCall (status self.old) (status self.new) (is_err result) };

    /// Makes the length at least `len`. What is added may hold anything.
    fn ensure(&mut self, len: u64) -> Result<(), Down>
        ensures ok { OnOk result (Goes (Grew len) (told self.old) (told self.new)) }
        ensures err { OnErr result ((status self.old).is_down ≡ false → Goes (GrowthRefused len) (told self.old) (told self.new)) }
        ensures frozen { IsTrue (status self.old).is_down → told self.new ≡ told self.old }
        ensures pending { (status self.new).pending ≡ (status self.old).pending }
        ensures call { DeviceCall (status self.old) (status self.new) (is_err result) };

    /// What a read sees is no shorter, and no longer, than what a loss of power may leave.
    ghost lengths: { (disk : Self) → IfSome (told disk) HasLengths };
}
