// Reading the snapshot of an image, and laying a half anew.
ghost use Rattle.std.specs.Prelude.{◌≡◌, ℕ, ◌+◌, ◌*◌, ◌^◌, ◌<◌, ◌≤◌, length, None, IfSome, OnOk, OnErr, is_err, false};
ghost use Rattle.std.specs.Int.{from_le_bytes, w64};
ghost use Rattle.ktm_base.specs.declared.limits.TheConstants.{MOST_UNITS};
ghost use Rattle.ktm_base.specs.Told.{Goes};
ghost use Rattle.ktm_base.specs.Disk.{DeviceCalls};
ghost use Rattle.ktm_log.specs.OnDisk.{on};
ghost use Rattle.ktm_log.specs.Settle.{Tore};
ghost use Rattle.ktm_world.specs.Sizes.{area_len};
ghost use Rattle.ktm_journal.specs.Format.{LaysHalf};
ghost use Rattle.ktm_journal.specs.Image.{IsHeaded, empty_snapshot, half_at, image_len};
ghost use Rattle.ktm_journal.specs.Snapshot.{SnapshotLeaves};

use crate::half::{Half, half_of};
use crate::image::{log_area, snapshot_area};
use crate::{Header, LoadFault};
use ktm_base::{Disk, Down};

/// The snapshot of a new image: no event, no boot, the next node number 2, and four empty lists.
#[tactic(auto, unfolding(crate::specs::Image::empty_snapshot))]
pub fn empty_snapshot() -> [u8; 36]
    ensures { result ≡ empty_snapshot }
{
    let mut bytes = [0; 36];
    bytes[12] = 2;
    bytes
}

// Set in a snapshot's length where it stands in an image.
const LENGTH_MARK: u64 = 1 << 63;

// The length of the snapshot whose area begins so, where the area has room for it.
fn length_in(first: [u8; 8], area_len: u64) -> Option<u64>
    requires { 8 ≤ area_len }
    ensures some { IfSome result (λ len. (from_le_bytes w64 first ≡ 2 ^ 63 + len) × (8 + len ≤ area_len)) }
    ensures none { result ≡ None → (len : ℕ) → from_le_bytes w64 first ≡ 2 ^ 63 + len → area_len < 8 + len }
{
    let marked = u64::from_le_bytes(first);
    if marked < LENGTH_MARK {
        return None;
    }
    let len = marked - LENGTH_MARK;
    if area_len - 8 < len {
        return None;
    }
    Some(len)
}

/// Reads the snapshot of the half that counts into the buffer, which is made as long as its area first: it takes memory
/// only where the buffer has less. A snapshot whose length is not marked, or that would be longer than its area, is bad.
pub fn read_snapshot<D: Disk>(
    disk: &mut D,
    header: Header,
    buffer: &mut Vec<u8>,
) -> Result<(), LoadFault>
    requires most { header.units ≤ MOST_UNITS }
    requires headed { IfSome (D.told disk.old) (λ s. IsHeaded header.units header.image header.selector s.seen) }
    ensures { SnapshotLeaves header (on buffer.old (D.told disk.old) (D.status disk.old)) (on buffer.new (D.told disk.new) (D.status disk.new)) result }
{
    let area = snapshot_area(header.units, half_of(header.selector));
    buffer.clear();
    let Ok(()) = buffer.reserve(area.len as usize) else {
        return Err(LoadFault::NoMemory);
    };
    let mut first = [0; 8];
    if let Err(Down) = disk.read_at(area.at, &mut first) {
        return Err(LoadFault::Down);
    }
    let Some(len) = length_in(first, area.len) else {
        return Err(LoadFault::Bad(area.at));
    };
    buffer.resize(len as usize, 0).unwrap();
    if let Err(Down) = disk.read_at(area.at + 8, buffer) {
        return Err(LoadFault::Down);
    }
    Ok(())
}

/// Writes a snapshot to a half, and behind it a log without a frame, and makes both safe.
pub(crate) fn lay_half<D: Disk>(
    disk: &mut D,
    units: u32,
    half: Half,
    snapshot: &[u8],
) -> Result<(), Down>
    requires most { units ≤ MOST_UNITS }
    requires within { IfSome (D.told disk.old) (λ s. image_len units ≤ length s.seen) }
    requires fits { 8 + length snapshot.now ≤ area_len units }
    requires pending { (D.status disk.old).pending ≡ 0 }
    ensures ok { OnOk result (Goes (LaysHalf units half snapshot.now) (D.told disk.old) (D.told disk.new)) }
    ensures err { OnErr result (Goes (Tore (half_at units half) (2 * area_len units)) (D.told disk.old) (D.told disk.new)) }
    ensures pending { OnOk result ((D.status disk.new).pending ≡ 0) }
    ensures up { OnOk result ((D.status disk.new).is_down ≡ false) }
    ensures calls { DeviceCalls 4 (D.status disk.old) (D.status disk.new) (is_err result) }
{
    let area = snapshot_area(units, half);
    let len = (LENGTH_MARK + snapshot.len() as u64).to_le_bytes();
    if let Err(Down) = disk.write_at(area.at, &len) {
        return Err(Down);
    }
    if let Err(Down) = disk.write_at(area.at + 8, snapshot) {
        return Err(Down);
    }
    if let Err(Down) = disk.write_at(log_area(units, half).at, &[0]) {
        return Err(Down);
    }
    if let Err(Down) = disk.sync() {
        return Err(Down);
    }
    Ok(())
}
