// What a new image holds, and how it is written.
ghost use Rattle.std.specs.Prelude.{[], false, ◌≡◌, ℕ, ◌+◌, ◌<◌, ◌≤◌, length, OnOk, OnErr, is_err, IfSome};
ghost use Rattle.ktm_base.specs.declared.limits.TheConstants.{LEAST_UNITS, MOST_UNITS};
ghost use Rattle.ktm_base.specs.Told.{Goes};
ghost use Rattle.ktm_base.specs.Disk.{DeviceCalls, IsSafe};
ghost use Rattle.ktm_journal.specs.declared.half.Half.TheVariants.{A};
ghost use Rattle.ktm_journal.specs.Image.{IsImage, empty_snapshot, half_at, image_len, log_area, page_count, pages_at, snapshot_area};
ghost use Rattle.ktm_world.specs.Sizes.{area_len};
ghost use Rattle.ktm_journal.specs.Format.{Anything, IsHeader, IsLaid, SettledBoth};
ghost use Rattle.ktm_journal.specs.Pages.{page_at};

use crate::half::Half;
use crate::snapshot::{empty_snapshot, lay_half};
use ktm_base::{Disk, Down, UNIT_BYTES};
use ktm_log::Area;

pub(crate) const SELECTOR_AT: u64 = 2048;

pub(crate) const HEADER_LEN: u64 = 4096;

/// The length in bytes of each area of an image of so many units.
pub(crate) fn area_len(units: u32) -> u64
    requires { units ≤ MOST_UNITS }
    ensures { result ≡ area_len units }
{
    8192 * u64::from(units) + 65536
}

/// How many pages an image of so many units has.
pub fn page_count(units: u32) -> u32
    requires { units ≤ MOST_UNITS }
    ensures { result ≡ page_count units }
{
    2 * units + 64
}

// Where the pages begin.
fn pages_at(units: u32) -> u64
    requires { units ≤ MOST_UNITS }
    ensures { result ≡ pages_at units }
{
    HEADER_LEN + 4 * area_len(units)
}

/// Where a page begins.
pub(crate) fn page_at(units: u32, page: u32) -> u64
    requires most { units ≤ MOST_UNITS }
    requires within { page < page_count units }
    ensures { result ≡ page_at units page }
{
    pages_at(units) + u64::from(page) * UNIT_BYTES
}

pub(crate) fn image_len(units: u32) -> u64
    requires { units ≤ MOST_UNITS }
    ensures { result ≡ image_len units }
{
    pages_at(units) + UNIT_BYTES * u64::from(page_count(units))
}

fn half_at(units: u32, half: Half) -> u64
    requires { units ≤ MOST_UNITS }
    ensures { result ≡ half_at units half }
{
    match half {
        Half::A => HEADER_LEN,
        Half::B => HEADER_LEN + 2 * area_len(units),
    }
}

/// The area of a half's snapshot.
pub(crate) fn snapshot_area(units: u32, half: Half) -> Area
    requires { units ≤ MOST_UNITS }
    ensures { result ≡ snapshot_area units half }
{
    Area {
        at: half_at(units, half),
        len: area_len(units),
    }
}

/// The area of a half's log.
pub(crate) fn log_area(units: u32, half: Half) -> Area
    requires { units ≤ MOST_UNITS }
    ensures { result ≡ log_area units half }
{
    let len = area_len(units);
    Area {
        at: half_at(units, half) + len,
        len,
    }
}

fn header(units: u32, image: u16) -> [u8; 18]
    ensures { IsHeader units image result }
{
    let [u0, u1, u2, u3] = units.to_le_bytes();
    let [i0, i1] = image.to_le_bytes();
    [
        b'K', b'T', b'M', b'T', b'X', b'F', b'0', b'1', 3, 0, 0, 0, u0, u1, u2, u3, i0, i1,
    ]
}

// Writes both, and makes them safe.
fn settle_both<D: Disk>(
    disk: &mut D,
    first_at: u64,
    first: &[u8],
    second_at: u64,
    second: &[u8],
) -> Result<(), Down>
    requires within { IfSome (D.told disk.old) (λ s. (first_at + length first.now ≤ length s.seen) × (second_at + length second.now ≤ length s.seen)) }
    requires pending { (D.status disk.old).pending ≡ 0 }
    ensures ok { OnOk result (Goes (SettledBoth first_at first.now second_at second.now) (D.told disk.old) (D.told disk.new)) }
    ensures err { OnErr result (Goes Anything (D.told disk.old) (D.told disk.new)) }
    ensures pending { OnOk result ((D.status disk.new).pending ≡ 0) }
    ensures up { OnOk result ((D.status disk.new).is_down ≡ false) }
    ensures calls { DeviceCalls 3 (D.status disk.old) (D.status disk.new) (is_err result) }
{
    if let Err(Down) = disk.write_at(first_at, first) {
        return Err(Down);
    }
    if let Err(Down) = disk.write_at(second_at, second) {
        return Err(Down);
    }
    if let Err(Down) = disk.sync() {
        return Err(Down);
    }
    Ok(())
}

/// Makes room for an image, and lays the half that counts in a new one.
pub(crate) fn lay<D: Disk>(disk: &mut D, units: u32) -> Result<(), Down>
    requires small { units ≤ MOST_UNITS }
    requires pending { (D.status disk.old).pending ≡ 0 }
    ensures ok { OnOk result (Goes (λ old new. IsLaid units A empty_snapshot new.seen) (D.told disk.old) (D.told disk.new)) }
    ensures err { OnErr result (Goes Anything (D.told disk.old) (D.told disk.new)) }
    ensures pending { OnOk result ((D.status disk.new).pending ≡ 0) }
    ensures up { OnOk result ((D.status disk.new).is_down ≡ false) }
    ensures calls { DeviceCalls 5 (D.status disk.old) (D.status disk.new) (is_err result) }
{
    if let Err(Down) = disk.ensure(image_len(units)) {
        return Err(Down);
    }
    if let Err(Down) = lay_half(disk, units, Half::A, &empty_snapshot()) {
        return Err(Down);
    }
    Ok(())
}

/// Writes the header before what was laid.
pub(crate) fn put_header<D: Disk>(disk: &mut D, units: u32, image: u16) -> Result<(), Down>
    requires from { LEAST_UNITS ≤ units }
    requires to { units ≤ MOST_UNITS }
    requires laid { IfSome (D.told disk.old) (λ s. IsLaid units A empty_snapshot s.seen) }
    requires pending { (D.status disk.old).pending ≡ 0 }
    ensures ok { OnOk result (Goes (λ old new. IsSafe new × IsImage units image empty_snapshot [] new.seen) (D.told disk.old) (D.told disk.new)) }
    ensures err { OnErr result (Goes Anything (D.told disk.old) (D.told disk.new)) }
    ensures pending { OnOk result ((D.status disk.new).pending ≡ 0) }
    ensures up { OnOk result ((D.status disk.new).is_down ≡ false) }
    ensures calls { DeviceCalls 3 (D.status disk.old) (D.status disk.new) (is_err result) }
{
    if let Err(Down) = settle_both(disk, 0, &header(units, image), SELECTOR_AT, &[0]) {
        return Err(Down);
    }
    Ok(())
}
