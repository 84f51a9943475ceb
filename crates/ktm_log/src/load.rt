// Reading an area from its begin, in pieces.
ghost use Rattle.std.specs.Prelude.{◌+◌, ◌^◌, ◌<◌, ◌≤◌, max, length, OnOk, vec_capacity};
ghost use Rattle.ktm_log.specs.Load.{FrameLeaves, Holds, ReadLeaves, pieces};
ghost use Rattle.ktm_log.specs.OnDisk.{on};

use crate::Area;
use crate::fault::FrameFault;
use crate::frame::payload_size;
use ktm_base::{Disk, Down};

// How many bytes one device call reads.
const PIECE: u64 = 4096;

// Reads the next piece, the last one shorter.
fn load_piece<D: Disk>(disk: &mut D, area: Area, read: &mut Vec<u8>) -> Result<(), Down>
    requires small { area.at + area.len < 2 ^ 63 }
    requires room { area.len ≤ vec_capacity read.old }
    requires more { length read.old.items < area.len }
    requires holds { Holds area (D.told disk.old) (D.status disk.old).is_down read.old.items }
    ensures leaves { ReadLeaves area (on read.old (D.told disk.old) (D.status disk.old)) (on read.new (D.told disk.new) (D.status disk.new)) result }
    ensures more { length read.old.items < length read.new.items }
    ensures few { pieces (length read.new.items) ≤ pieces (length read.old.items) + 1 }
{
    let from = read.len();
    let piece = PIECE.min(area.len - from as u64);
    read.resize(from + piece as usize, 0).unwrap();
    if let Err(Down) = disk.read_at(area.at + from as u64, &mut read[from..]) {
        return Err(Down);
    }
    Ok(())
}

// Reads on until so many bytes of the area are there, and no piece more.
#[inline(never)]
fn load_pieces<D: Disk>(disk: &mut D, area: Area, read: &mut Vec<u8>, upto: u64) -> Result<(), Down>
    requires small { area.at + area.len < 2 ^ 63 }
    requires room { area.len ≤ vec_capacity read.old }
    requires upto { upto ≤ area.len }
    requires holds { Holds area (D.told disk.old) (D.status disk.old).is_down read.old.items }
    ensures leaves { ReadLeaves area (on read.old (D.told disk.old) (D.status disk.old)) (on read.new (D.told disk.new) (D.status disk.new)) result }
    ensures upto { OnOk result (upto ≤ length read.new.items) }
    ensures few { pieces (length read.new.items) ≤ max (pieces (length read.old.items)) (pieces upto) }
{
    while (read.len() as u64) < upto {
        if let Err(Down) = load_piece(disk, area, read) {
            return Err(Down);
        }
    }
    Ok(())
}

// Reads on where so many bytes of the area are not there yet, and no piece more. Mostly they are.
fn load<D: Disk>(disk: &mut D, area: Area, read: &mut Vec<u8>, upto: u64) -> Result<(), Down>
    requires small { area.at + area.len < 2 ^ 63 }
    requires room { area.len ≤ vec_capacity read.old }
    requires upto { upto ≤ area.len }
    requires holds { Holds area (D.told disk.old) (D.status disk.old).is_down read.old.items }
    ensures leaves { ReadLeaves area (on read.old (D.told disk.old) (D.status disk.old)) (on read.new (D.told disk.new) (D.status disk.new)) result }
    ensures upto { OnOk result (upto ≤ length read.new.items) }
    ensures few { pieces (length read.new.items) ≤ max (pieces (length read.old.items)) (pieces upto) }
{
    if upto <= read.len() as u64 {
        return Ok(());
    }
    load_pieces(disk, area, read, upto)
}

// The length of the payload of the frame at this offset of the area, if the gate there is open.
pub(crate) fn next_frame<D: Disk>(
    disk: &mut D,
    area: Area,
    read: &mut Vec<u8>,
    at: u64,
) -> Result<Option<u64>, FrameFault>
    requires small { area.at + area.len < 2 ^ 63 }
    requires room { area.len ≤ vec_capacity read.old }
    requires inside { at < area.len }
    requires holds { Holds area (D.told disk.old) (D.status disk.old).is_down read.old.items }
    ensures { FrameLeaves area at (on read.old (D.told disk.old) (D.status disk.old)) (on read.new (D.told disk.new) (D.status disk.new)) result }
{
    if let Err(Down) = load(disk, area, read, at + 1) {
        return Err(FrameFault::Down);
    }
    if read[at as usize] != 1 {
        return Ok(None);
    }
    if area.len - at < 6 {
        return Err(FrameFault::Torn);
    }
    if let Err(Down) = load(disk, area, read, at + 5) {
        return Err(FrameFault::Down);
    }
    let size = u64::from(payload_size(read, at as usize));
    if area.len - at < size + 6 {
        return Err(FrameFault::Torn);
    }
    if let Err(Down) = load(disk, area, read, at + size + 6) {
        return Err(FrameFault::Down);
    }
    Ok(Some(size))
}
