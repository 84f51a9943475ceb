// What is kept where a sync fails behind two writes, by the number of the pick with which the power comes back.
ghost use Rattle.std.specs.Prelude.{◌≡◌, ◌≤◌, ◌-◌, ◌++◌, Some, false, length, take, drop, replicate, slice_index_or};
ghost use Rattle.ktm_base.specs.Count.{raised};

use crate::picks::{LEN, OLD, write_two};
use ktm_base::{Block, Disk, Failed, NoMemory, PowerDisk};
use ktm_cut::CutDisk;
use std::alloc::Global;

/// Bytes in memory whose first flush fails, and loses what was written: until the power goes these bytes are read as they were
/// written, but only what is written again is kept by the flushes that follow.
#[derive(Drop)]
struct LosingBlock {
    bytes: Vec<u8>,
    is_lost: Vec<bool>,
    has_failed: bool,
    waits: bool,
    faults: u64,
    ghost marked: { length is_lost.items ≡ length bytes.items },
}

impl LosingBlock {
    fn new(alloc: Global) -> Result<LosingBlock, NoMemory> {
        Ok(LosingBlock {
            bytes: vec![in alloc; OLD; LEN]?,
            is_lost: vec![in alloc; false; LEN]?,
            has_failed: false,
            waits: false,
            faults: 0,
        })
    }

    fn fail(&mut self) -> Failed
        ensures faults { self.new ≡ record self.old { faults = raised self.old.faults } }
        ensures later { self.old.faults ≤ self.new.faults }
    {
        self.faults = self.faults.saturating_add(1);
        Failed
    }

    /// What it keeps, in digits.
    fn kept(&self, alloc: Global) -> Result<String, NoMemory> {
        let mut digits = String::new(alloc);
        for (byte, is_lost) in self.bytes.iter().zip(&self.is_lost) {
            let kept = if *is_lost { OLD } else { *byte };
            digits.push_str(&format!(in alloc; "{kept:02x}")?)?;
        }
        Ok(digits)
    }
}

fn clear(marks: &mut Vec<bool>, at: usize, end: usize)
    requires order { at ≤ end }
    requires within { end ≤ length marks.old.items }
    ensures items { marks.new.items ≡ take at marks.old.items ++ replicate (end - at) false ++ drop end marks.old.items }
    ensures length { length marks.new.items ≡ length marks.old.items }
{
    marks[at..end].fill(false);
}

impl Block for LosingBlock {
    ghost contents = { λ b. Some b.bytes.items };

    ghost faults = { λ b. b.faults };

    ghost waits = { λ b. b.waits };

    ghost is_doubted = { λ b place. slice_index_or b.is_lost.items place false };

    fn len(&mut self) -> Result<u64, Failed> {
        Ok(self.bytes.len() as u64)
    }

    fn read_at(&mut self, at: u64, buf: &mut [u8]) -> Result<(), Failed> {
        let at = at as usize;
        buf.copy_from_slice(&self.bytes[at..at + buf.len()]);
        Ok(())
    }

    fn write_at(&mut self, at: u64, bytes: &[u8]) -> Result<(), Failed> {
        let at = at as usize;
        let end = at + bytes.len();
        self.bytes[at..end].copy_from_slice(bytes);
        clear(&mut self.is_lost, at, end);
        self.waits = true;
        Ok(())
    }

    fn flush(&mut self) -> Result<(), Failed> {
        if !self.has_failed {
            self.has_failed = true;
            self.is_lost.fill(true);
            return Err(self.fail());
        }
        self.waits = false;
        Ok(())
    }

    fn ensure(&mut self, len: u64) -> Result<(), Failed> {
        self.waits = true;
        if len > self.bytes.len() as u64 {
            return Err(self.fail());
        }
        Ok(())
    }
}

/// The bytes that are kept where a sync fails behind two writes, and the pick with this number gives the power back, in digits.
pub fn kept_by(alloc: Global, number: &str) -> Result<String, NoMemory> {
    let mut disk = CutDisk::new(alloc, LosingBlock::new(alloc)?)?;
    write_two(&mut disk);
    let _ = disk.sync();
    disk.plan_room(alloc)?;
    let _ = disk.power(number.parse::<u64>().unwrap_or(0));
    disk.block().kept(alloc)
}
