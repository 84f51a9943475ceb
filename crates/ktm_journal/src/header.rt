// Reading the header of an image.
ghost use Rattle.std.specs.Prelude.{IsErrOf, ◌≡◌, ℕ, ◌≤◌, length, None, IfOk, IfSome, OnOk, is_err, false};
ghost use Rattle.ktm_base.specs.declared.limits.TheConstants.{LEAST_UNITS, MOST_UNITS};
ghost use Rattle.ktm_base.specs.Disk.{OnlyReads};
ghost use Rattle.ktm_journal.specs.Image.{IsHeaded, half_of, log_area, snapshot_area};
ghost use Rattle.ktm_journal.specs.Format.{IsHeader};
ghost use Rattle.ktm_journal.specs.Bad.{HasNoHeader, load_went_down};
ghost use Rattle.ktm_journal.specs.Header.{BeginsAnImage, IsFront};

use crate::LoadFault;
use crate::half::half_of;
use crate::image::{HEADER_LEN, SELECTOR_AT, image_len, log_area, snapshot_area};
use ktm_base::{Disk, Down, LEAST_UNITS, MOST_UNITS};
use ktm_codec::{u16_in, u32_in};

/// What the header of an image says.
#[derive(Clone, Copy)]
pub struct Header {
    /// The size that the image was made with.
    pub units: u32,
    /// The number that it was made with.
    pub image: u16,
    /// Which half counts: one half where it is even, and the other where it is odd.
    pub selector: u8,
}

// What these bytes say, if they begin an image of some size and number, with this selector.
fn parse(bytes: &[u8; 18], selector: u8) -> Option<Header>
    ensures some { IfSome result (λ header. IsHeader header.units header.image bytes.now × (header.selector ≡ selector)) }
    ensures none { result ≡ None → (units image : ℕ) → ¬ IsHeader units image bytes.now }
{
    if bytes[..8] != b"KTMTXF01"[..] || u32_in(bytes, 8) != 3 {
        return None;
    }
    Some(Header {
        units: u32_in(bytes, 12),
        image: u16_in(bytes, 16),
        selector,
    })
}

// What these bytes say, if they are the header of an image in bytes of this length, with this selector.
fn front(bytes: &[u8; 18], selector: u8, len: u64) -> Option<Header>
    ensures some { IfSome result (λ header. IsFront header.units header.image len bytes.now × (header.selector ≡ selector)) }
    ensures none { result ≡ None → (units image : ℕ) → ¬ IsFront units image len bytes.now }
{
    let Some(header) = parse(bytes, selector) else {
        return None;
    };
    if header.units < LEAST_UNITS || MOST_UNITS < header.units || len < image_len(header.units) {
        return None;
    }
    Some(header)
}

// The header of the disk's image, if it has one.
fn read_header<D: Disk>(disk: &mut D) -> Result<Option<Header>, Down>
    ensures told { IfOk result (λ found. IfSome (D.told disk.old) (λ s. BeginsAnImage found s.seen)) }
    ensures size { IfOk result (λ found. IfSome found (λ header. (LEAST_UNITS ≤ header.units) × (header.units ≤ MOST_UNITS))) }
    ensures reads { OnlyReads 3 (D.told disk.old) (D.told disk.new) (D.status disk.old) (D.status disk.new) (is_err result) }
    ensures up { OnOk result ((D.status disk.new).is_down ≡ false) }
{
    let len = match disk.len() {
        Ok(len) => len,
        Err(Down) => return Err(Down),
    };
    if len < HEADER_LEN {
        return Ok(None);
    }
    let mut header = [0; 18];
    if let Err(Down) = disk.read_at(0, &mut header) {
        return Err(Down);
    }
    let mut selector = [0; 1];
    if let Err(Down) = disk.read_at(SELECTOR_AT, &mut selector) {
        return Err(Down);
    }
    Ok(front(&header, selector[0], len))
}

impl Header {
    /// Reads the header of an image. Without one the fault is `Bad(0)`.
    pub fn read<D: Disk>(disk: &mut D) -> Result<Header, LoadFault>
        ensures headed { IfOk result (λ header. IfSome (D.told disk.old) (λ s. IsHeaded header.units header.image header.selector s.seen)) }
        ensures size { IfOk result (λ header. (LEAST_UNITS ≤ header.units) × (header.units ≤ MOST_UNITS)) }
        ensures bad { (offset : ℕ) → IsErrOf result (LoadFault.Bad offset) → IfSome (D.told disk.old) (λ s. HasNoHeader s.seen) × (offset ≡ 0) }
        ensures reads { OnlyReads 3 (D.told disk.old) (D.told disk.new) (D.status disk.old) (D.status disk.new) (load_went_down result) }
        ensures up { OnOk result ((D.status disk.new).is_down ≡ false) }
        ensures up_bad { (offset : ℕ) → IsErrOf result (LoadFault.Bad offset) → (D.status disk.new).is_down ≡ false }
    {
        match read_header(disk) {
            Ok(Some(header)) => Ok(header),
            Ok(None) => Err(LoadFault::Bad(0)),
            Err(Down) => Err(LoadFault::Down),
        }
    }

    /// The offset at which the area of the snapshot begins, in the half that counts.
    pub fn snapshot_at(self) -> u64
        requires { self.units ≤ MOST_UNITS }
        ensures { result ≡ (snapshot_area self.units (half_of self.selector)).at }
    {
        snapshot_area(self.units, half_of(self.selector)).at
    }

    /// The offset at which the log begins, in the half that counts.
    pub fn log_at(self) -> u64
        requires { self.units ≤ MOST_UNITS }
        ensures { result ≡ (log_area self.units (half_of self.selector)).at }
    {
        log_area(self.units, half_of(self.selector)).at
    }
}
