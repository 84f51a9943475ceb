// A write and a sync.
ghost use Rattle.std.specs.Prelude.{◌≡◌, ◌+◌, ◌<◌, ◌≤◌, length, OnOk, OnErr, is_err, false, IfSome};
ghost use Rattle.ktm_base.specs.declared.limits.TheConstants.{MOST_PENDING};
ghost use Rattle.ktm_base.specs.Told.{Goes};
ghost use Rattle.ktm_base.specs.Disk.{DeviceCalls};
ghost use Rattle.ktm_log.specs.Settle.{Settled, Tore};

use ktm_base::{Disk, Down};

/// Writes bytes and makes them safe. Where the disk went down the range may hold anything.
pub fn settle<D: Disk>(disk: &mut D, at: u64, bytes: &[u8]) -> Result<(), Down>
    requires within { IfSome (D.told disk.old) (λ s. at + length bytes.now ≤ length s.seen) }
    requires room { (D.status disk.old).pending < MOST_PENDING }
    ensures ok { OnOk result (Goes (Settled at bytes.now) (D.told disk.old) (D.told disk.new)) }
    ensures err { OnErr result (Goes (Tore at (length bytes.now)) (D.told disk.old) (D.told disk.new)) }
    ensures pending { OnOk result ((D.status disk.new).pending ≡ 0) }
    ensures up { OnOk result ((D.status disk.new).is_down ≡ false) }
    ensures calls { DeviceCalls 2 (D.status disk.old) (D.status disk.new) (is_err result) }
{
    if let Err(Down) = disk.write_at(at, bytes) {
        return Err(Down);
    }
    if let Err(Down) = disk.sync() {
        return Err(Down);
    }
    Ok(())
}
