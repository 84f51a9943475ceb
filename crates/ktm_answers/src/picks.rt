// What a loss of power leaves of a disk, by the number of its pick.
ghost use Rattle.std.specs.Prelude.{◌+◌, ◌<◌, ◌≤◌};

use crate::words::digits;
use ktm_base::{Bytes, Disk, Down, NoMemory, PowerDisk};
use ktm_cut::CutDisk;
use ktm_mem::{Calls, MemBlock};
use std::alloc::Global;

/// The length of the disk in bytes.
pub const LEN: usize = 24;

/// The byte that it holds everywhere at first.
pub const OLD: u8 = 0x11;

/// Writes where the range is within the disk.
pub fn write<D: Disk>(disk: &mut D, at: u64, bytes: &[u8]) -> Result<(), Down>
    requires { (D.status disk.old).pending < 64 }
    ensures { (D.status disk.new).pending ≤ (D.status disk.old).pending + 1 }
{
    let end = at.checked_add(bytes.len() as u64).ok_or(Down)?;
    if disk.len()? < end {
        return Err(Down);
    }
    disk.write_at(at, bytes)
}

/// Writes five bytes at 2 and seven at 10. (A call that were refused would show in the bytes.)
pub fn write_two<D: Disk>(disk: &mut D)
    requires { (D.status disk.old).pending < 63 }
{
    let _ = write(disk, 2, &[0xaa; 5]);
    let _ = write(disk, 10, &[0xbb; 7]);
}

/// The bytes that the pick with this number leaves where the power goes behind two writes, in digits.
pub fn left_by(alloc: Global, number: &str) -> Result<String, NoMemory> {
    let old = Bytes::new(vec![in alloc; OLD; LEN]?);
    let block = MemBlock::new(alloc, old, LEN, Calls::none(alloc))?;
    let mut disk = CutDisk::new(alloc, block)?;
    write_two(&mut disk);
    disk.plan_room(alloc)?;
    disk.off();
    let _ = disk.power(number.parse::<u64>().unwrap_or(0));
    digits(alloc, disk.into_block().bytes())
}
