// Pages that are read and written in parts.
ghost use Rattle.std.specs.Prelude.{◌≡◌, ℕ, ◌*◌, ◌+◌, ◌-◌, ◌<◌, ◌≤◌, ◌^◌, length, slice_index, slice_range, MatchOption, IfSome, OnErr, OnOk, is_err, if◌then◌else◌, nat_lt};
ghost use Rattle.ktm_base.specs.Disk.{DeviceCalls};
ghost use Rattle.ktm_base.specs.Told.{Goes};
ghost use Rattle.ktm_page.specs.Row.{LostPage, page_of};
ghost use Rattle.ktm_extent.specs.Extent.{AreBelow, contents};
ghost use Rattle.ktm_extent.specs.Units.{IsUnit, WroteUnit, byte_over, read_calls, target};

use crate::Extent;
use ktm_base::{Down, UNIT_BYTES};
use ktm_page::PageIo;

/// Reads a part of a page.
pub(crate) fn read_part<P: PageIo>(
    io: &mut P,
    page: u32,
    from: usize,
    part: &mut [u8],
) -> Result<(), Down>
    requires row { page < P.count io.old }
    requires within { from + length part.old ≤ 4096 }
    ensures value { OnOk result (IfSome (P.told io.old) (λ r. part.new ≡ slice_range (page_of r.seen page) from (from + length part.old))) }
    ensures same { P.told io.new ≡ P.told io.old }
    ensures count { P.count io.new ≡ P.count io.old }
    ensures keeps { P.keeps io.old io.new }
    ensures calls { DeviceCalls 2 (P.status io.old) (P.status io.new) (is_err result) }
{
    if let Some(whole) = part.first_chunk_mut() {
        if let Err(Down) = io.read_page(page, whole) {
            return Err(Down);
        }
        return Ok(());
    }
    let mut whole = [0; 4096];
    if let Err(Down) = io.read_page(page, &mut whole) {
        return Err(Down);
    }
    part.copy_from_slice(&whole[from..from + part.len()]);
    Ok(())
}

// Fills the buffer of a unit with zeros behind so many bytes.
pub(crate) fn clear_behind(buf: &mut [u8; 4096], len: u64)
    ensures { (i : ℕ) → i < 4096 → slice_index buf.new i ≡ (if nat_lt i len then slice_index buf.old i else 0) }
{
    if len < UNIT_BYTES {
        buf[len as usize..].fill(0);
    }
}

// The bytes of the unit that begins here, if they are all among these at an offset.
fn whole_unit(bytes: &[u8], at: u64, start: u64) -> Option<&[u8; 4096]>
    requires { start < at + length bytes.now }
    ensures { IfSome result (λ whole. (at ≤ start) × (start + 4096 ≤ at + length bytes.now) × (whole.now ≡ slice_range bytes.now (start - at) (start - at + 4096))) }
{
    if start < at {
        return None;
    }
    let Some(whole) = bytes[(start - at) as usize..].first_chunk() else {
        return None;
    };
    Some(whole)
}

// Puts what falls in the unit that begins here of bytes at an offset over its buffer.
fn put_part(buf: &mut [u8; 4096], start: u64, at: u64, bytes: &[u8])
    requires begins { start < at + length bytes.now }
    requires ends { at + length bytes.now < 2 ^ 64 }
    ensures { (i : ℕ) → i < 4096 → slice_index buf.new i ≡ byte_over at bytes.now (λ k. slice_index buf.old (k - start)) (start + i) }
{
    let from = at.saturating_sub(start).min(4096) as usize;
    let to = (at + bytes.len() as u64 - start).min(4096) as usize;
    if from < to {
        let skip = start.saturating_sub(at) as usize;
        buf[from..to].copy_from_slice(&bytes[skip..skip + (to - from)]);
    }
}

/// Writes on a page what a unit holds where bytes are put over the contents.
pub(crate) fn write_unit<P: PageIo>(
    old: &Extent,
    io: &mut P,
    page: u32,
    unit: u64,
    at: u64,
    bytes: &[u8],
) -> Result<(), Down>
    requires below { AreBelow (P.count io.old) old.now }
    requires row { page < P.count io.old }
    requires begins { unit * 4096 < at + length bytes.now }
    requires ends { at + length bytes.now < 2 ^ 64 }
    ensures ok { OnOk result (Goes (WroteUnit (target old.now at bytes.now) unit page) (P.told io.old) (P.told io.new)) }
    ensures err { OnErr result (Goes (LostPage page) (P.told io.old) (P.told io.new)) }
    ensures count { P.count io.new ≡ P.count io.old }
    ensures keeps { P.keeps io.old io.new }
    ensures calls { DeviceCalls (2 + read_calls old.now.size at (at + length bytes.now) (unit * 4096)) (P.status io.old) (P.status io.new) (is_err result) }
{
    let start = unit * UNIT_BYTES;
    if let Some(whole) = whole_unit(bytes, at, start) {
        if let Err(Down) = io.write_page(page, whole) {
            return Err(Down);
        }
        return Ok(());
    }
    let mut buf = [0; 4096];
    if let Err(Down) = old.read_kept(io, unit, at, at + bytes.len() as u64, &mut buf) {
        return Err(Down);
    }
    put_part(&mut buf, start, at, bytes);
    if let Err(Down) = io.write_page(page, &buf) {
        return Err(Down);
    }
    Ok(())
}
