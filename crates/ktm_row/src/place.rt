// A page of a row, read from its disk and written to it.
ghost use Rattle.std.specs.Prelude.{◌≡◌, ℕ, ◌+◌, ◌*◌, ◌<◌, ◌≤◌, ◌^◌, length, IfSome, OnErr, OnOk, is_err};
ghost use Rattle.ktm_base.specs.declared.limits.TheConstants.{MOST_PENDING, UNIT_BYTES};
ghost use Rattle.ktm_base.specs.Disk.{DeviceCall, Wrote};
ghost use Rattle.ktm_base.specs.Told.{Goes};
ghost use Rattle.ktm_page.specs.Row.{LostPage, WrotePage, page_of};
ghost use Rattle.ktm_row.specs.Places.{Stands, StaysBehind, Touched, end_of, row_told};

use ktm_base::{Disk, Down, UNIT_BYTES};

// Where a page begins on the disk.
fn offset(begin: u64, pages: u32, page: u32) -> u64
    requires whole { end_of begin pages < 2 ^ 64 }
    requires within { page < pages }
    ensures { result ≡ begin + page * UNIT_BYTES }
{
    let _pages = pages;
    begin + page as u64 * UNIT_BYTES
}

// Writes over a range.
fn write_over<D: Disk>(disk: &mut D, at: u64, bytes: &[u8]) -> Result<(), Down>
    requires fits { IfSome (D.told disk.old) (λ s. at + length bytes.now ≤ length s.seen) }
    requires room { (D.status disk.old).pending < MOST_PENDING }
    ensures ok { OnOk result (Goes (Wrote at bytes.now) (D.told disk.old) (D.told disk.new)) }
    ensures touched { Goes (Touched at (length bytes.now)) (D.told disk.old) (D.told disk.new) }
    ensures pending { (D.status disk.new).pending ≤ (D.status disk.old).pending + 1 }
    ensures call { DeviceCall (D.status disk.old) (D.status disk.new) (is_err result) }
{
    if let Err(Down) = disk.write_at(at, bytes) {
        return Err(Down);
    }
    Ok(())
}

// Fills the buffer with the bytes of a page.
pub(crate) fn get_page<D: Disk>(
    disk: &mut D,
    begin: u64,
    pages: u32,
    page: u32,
    buf: &mut [u8; 4096],
) -> Result<(), Down>
    requires whole { end_of begin pages < 2 ^ 64 }
    requires within { page < pages }
    requires stands { IfSome (D.told disk.old) (Stands begin pages) }
    ensures value { OnOk result (IfSome (row_told begin pages (D.told disk.old)) (λ r. buf.new ≡ page_of r.seen page)) }
    ensures same { D.told disk.new ≡ D.told disk.old }
    ensures pending { (D.status disk.new).pending ≡ (D.status disk.old).pending }
    ensures call { DeviceCall (D.status disk.old) (D.status disk.new) (is_err result) }
{
    let at = offset(begin, pages, page);
    if let Err(Down) = disk.read_at(at, buf) {
        return Err(Down);
    }
    Ok(())
}

// Writes over a page.
pub(crate) fn put_page<D: Disk>(
    disk: &mut D,
    begin: u64,
    pages: u32,
    page: u32,
    bytes: &[u8; 4096],
) -> Result<(), Down>
    requires whole { end_of begin pages < 2 ^ 64 }
    requires within { page < pages }
    requires stands { IfSome (D.told disk.old) (Stands begin pages) }
    requires room { (D.status disk.old).pending < MOST_PENDING }
    ensures ok { OnOk result (Goes (WrotePage page bytes.now) (row_told begin pages (D.told disk.old)) (row_told begin pages (D.told disk.new))) }
    ensures err { OnErr result (Goes (LostPage page) (row_told begin pages (D.told disk.old)) (row_told begin pages (D.told disk.new))) }
    ensures stands { IfSome (D.told disk.new) (Stands begin pages) }
    ensures behind { Goes (StaysBehind begin pages) (D.told disk.old) (D.told disk.new) }
    ensures pending { (D.status disk.new).pending ≤ (D.status disk.old).pending + 1 }
    ensures call { DeviceCall (D.status disk.old) (D.status disk.new) (is_err result) }
{
    let at = offset(begin, pages, page);
    if let Err(Down) = write_over(disk, at, bytes) {
        return Err(Down);
    }
    Ok(())
}
