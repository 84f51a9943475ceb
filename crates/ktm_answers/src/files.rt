// The calls that a block over a file makes, and a disk over the block, where one of them fails.
ghost use Rattle.std.specs.Prelude.{◌≡◌, ◌+◌, ◌<◌, ◌≤◌, Some, OnOk, OnErr};
ghost use Rattle.ktm_base.specs.Count.{raised};

use crate::picks::write;
use ktm_base::{Block, Disk, Down, Failed, NoMemory};
use ktm_disk::BlockDisk;
use ktm_os::{FileBlock, ImageFile};
use std::alloc::Global;
use std::io;

/// A file in memory that tells, and keeps a letter for each call that it had. One of its calls fails.
#[derive(Drop)]
struct CountingFile {
    bytes: Vec<u8>,
    is_synced: bool,
    is_name_synced: bool,
    asked: String,
    calls: u64,
    fails: u64,
    failures: u64,
}

impl CountingFile {
    fn new(alloc: Global, fails: u64) -> CountingFile {
        CountingFile {
            bytes: Vec::new(alloc),
            is_synced: false,
            is_name_synced: false,
            asked: String::new(alloc),
            calls: 0,
            fails,
            failures: 0,
        }
    }

    fn begin(&mut self, letter: char) -> io::Result<()>
        ensures bytes { self.new.bytes ≡ self.old.bytes }
        ensures synced { self.new.is_synced ≡ self.old.is_synced }
        ensures name { self.new.is_name_synced ≡ self.old.is_name_synced }
        ensures answered { OnOk result (self.new.failures ≡ self.old.failures) }
        ensures failed { OnErr result (self.new.failures ≡ raised self.old.failures) }
    {
        let _ = self.asked.push(letter);
        self.calls = self.calls.saturating_add(1);
        if self.calls == self.fails {
            return Err(self.fail());
        }
        Ok(())
    }

    fn fail(&mut self) -> io::Error
        ensures { self.new ≡ record self.old { failures = raised self.old.failures } }
    {
        self.failures = self.failures.saturating_add(1);
        io::ErrorKind::Other.into()
    }
}

impl ImageFile for CountingFile {
    ghost contents = { λ f. Some f.bytes.items };

    ghost failures = { λ f. Some f.failures };

    ghost is_synced = { λ f. f.is_synced };

    ghost is_name_synced = { λ f. f.is_name_synced };

    fn len(&mut self) -> io::Result<u64> {
        self.begin('l')?;
        Ok(self.bytes.len() as u64)
    }

    fn read(&mut self, at: u64, buf: &mut [u8]) -> io::Result<()> {
        self.begin('r')?;
        let at = at as usize;
        buf.copy_from_slice(&self.bytes[at..at + buf.len()]);
        Ok(())
    }

    fn write(&mut self, at: u64, bytes: &[u8]) -> io::Result<()> {
        self.begin('w')?;
        let at = at as usize;
        self.bytes[at..at + bytes.len()].copy_from_slice(bytes);
        self.is_synced = false;
        Ok(())
    }

    fn grow(&mut self, len: u64) -> io::Result<()> {
        self.begin('g')?;
        self.is_synced = false;
        if self.bytes.resize(len as usize, 0).is_err() {
            return Err(self.fail());
        }
        Ok(())
    }

    fn sync(&mut self) -> io::Result<()> {
        self.begin('s')?;
        self.is_synced = true;
        Ok(())
    }

    fn sync_folder(&mut self) -> io::Result<()> {
        self.begin('f')?;
        self.is_name_synced = true;
        Ok(())
    }
}

fn change(block: &mut FileBlock<CountingFile>) -> Result<(), Failed> {
    block.ensure(8)?;
    block.write_at(2, &[1, 2])?;
    block.flush()
}

/// A letter for each call of a file whose call with this number fails, where a change is made twice, and flushed once more.
pub fn calls_of(alloc: Global, number: &str) -> Result<String, NoMemory> {
    let fails = number.parse::<u64>().unwrap_or(0);
    let mut block = FileBlock::over(CountingFile::new(alloc, fails));
    let first = change(&mut block);
    let second = change(&mut block);
    let flushed = block.flush();
    let is_as_it_must = first.is_ok() == (fails == 0) && second.is_ok() && flushed.is_ok();
    if !is_as_it_must || block.faults() != u64::from(fails != 0) {
        return Ok(String::from_str(alloc, "another answer")?);
    }
    Ok(String::from_str(alloc, block.file().asked.as_str())?)
}

/// Grows a disk to 8 bytes, and makes two bytes stay at 2.
pub fn change_disk<D: Disk>(disk: &mut D) -> Result<(), Down>
    requires { (D.status disk.old).pending < 64 }
    ensures { (D.status disk.new).pending ≤ (D.status disk.old).pending + 1 }
{
    disk.ensure(8)?;
    write(disk, 2, &[1, 2])?;
    disk.sync()
}

/// A letter for each call of a file whose call with this number fails, where a disk over it is changed twice, and synced once
/// more.
pub fn calls_of_disk(alloc: Global, number: &str) -> Result<String, NoMemory> {
    let fails = number.parse::<u64>().unwrap_or(0);
    let block = FileBlock::over(CountingFile::new(alloc, fails));
    let mut disk = BlockDisk::new(alloc, block)?;
    let _ = change_disk(&mut disk);
    let _ = change_disk(&mut disk);
    let _ = disk.sync();
    if disk.is_down() != (fails != 0) {
        return Ok(String::from_str(alloc, "another answer")?);
    }
    Ok(String::from_str(alloc, disk.block().file().asked.as_str())?)
}
