// A block device in memory.
ghost use Rattle.std.specs.Prelude.{◌≡◌, ◌≤◌, ◌+◌, ◌||◌, ℕ, List, Some, true, false, [], ◌∷◌, length, IfOk, OnOk, OnErr, is_err, nat_lt, vec_capacity, slice_range, max, IfSome};
ghost use Rattle.ktm_base.specs.Told.{Goes};
ghost use Rattle.ktm_base.specs.Bytes.{written, SameOutside, GrewTo, GrewTowards};
ghost use Rattle.ktm_base.specs.Stream.{Faults};
ghost use Rattle.ktm_mem.specs.Schedule.{fails_next};

use crate::contents::{grow, put_over};
use crate::schedule::{Calls, Schedule};
use ktm_base::{Block, Bytes, Failed, NoMemory};
use std::alloc::Global;

/// Keeps its bytes, and grows within its room. A call that fails changes none of them, and a buffer that it was to fill is as it
/// was. A flush that fails loses nothing.
#[derive(Drop)]
pub struct MemBlock {
    bytes: Vec<u8>,
    room: usize,
    schedule: Schedule,
    waits: bool,
    faults: u64,
    ghost within: { length bytes.items ≤ room },
    ghost taken: { room ≤ vec_capacity bytes },
}

impl MemBlock {
    ghost use Rattle.ktm_mem.specs.Objects.{contents_of, block_room, block_schedule};

    /// With these bytes, and room for so many in all.
    pub fn new(alloc: Global, bytes: Bytes, room: usize, fails: Calls) -> Result<Self, NoMemory>
        requires { length bytes ≤ room }
        ensures contents { IfOk result (λ block. contents_of block ≡ bytes) }
        ensures room { IfOk result (λ block. block_room block ≡ room) }
        ensures schedule { IfOk result (λ block. block_schedule block ≡ record { fails = fails; calls = 0 }) }
        ensures waits { IfOk result (λ block. block.waits ≡ false) }
    {
        let mut bytes = bytes.into_vec();
        bytes.reserve(room - bytes.len())?;
        Ok(MemBlock {
            bytes,
            room,
            schedule: Schedule::new(fails),
            waits: false,
            faults: 0,
        })
    }

    /// Its contents.
    pub fn bytes(&self) -> &[u8]
        ensures { result.now ≡ contents_of self.now }
    {
        &self.bytes
    }

    /// Whether anything that was written or added waits to be flushed.
    pub fn waits(&self) -> bool
        ensures { result ≡ self.now.waits }
    {
        self.waits
    }
}

impl Block for MemBlock {
    ghost use Rattle.ktm_mem.specs.Objects.{contents_of, block_room, block_schedule, BlockCall};

    ghost contents = { λ b. Some (contents_of b) };

    ghost faults = { λ b. b.faults };

    ghost waits = { λ b. b.waits };

    ghost is_doubted = { λ b place. false };

    fn len(&mut self) -> Result<u64, Failed>
        ensures value { IfOk result (λ n. n ≡ length (contents_of self.old)) }
        ensures same { Some (contents_of self.new) ≡ Some (contents_of self.old) }
        ensures waits { self.new.waits ≡ self.old.waits }
        ensures faults { Faults self.old.faults self.new.faults result }
        ensures call { BlockCall self.old self.new result }
        ensures fails { is_err result ≡ fails_next (block_schedule self.old) }
    {
        self.begin_call()?;
        Ok(self.bytes.len() as u64)
    }

    fn read_at(&mut self, at: u64, buf: &mut [u8]) -> Result<(), Failed>
        requires { at + length buf.old ≤ length (contents_of self.old) }
        ensures value { OnOk result (buf.new ≡ slice_range (contents_of self.old) at (at + length buf.old)) }
        ensures same { Some (contents_of self.new) ≡ Some (contents_of self.old) }
        ensures waits { self.new.waits ≡ self.old.waits }
        ensures faults { Faults self.old.faults self.new.faults result }
        ensures call { BlockCall self.old self.new result }
        ensures refused { OnErr result (buf.new ≡ buf.old) }
        ensures fails { is_err result ≡ fails_next (block_schedule self.old) }
    {
        self.begin_call()?;
        let at = at as usize;
        buf.copy_from_slice(&self.bytes[at..at + buf.len()]);
        Ok(())
    }

    fn write_at(&mut self, at: u64, bytes: &[u8]) -> Result<(), Failed>
        requires { at + length bytes.now ≤ length (contents_of self.old) }
        ensures ok { OnOk result (contents_of self.new ≡ written (contents_of self.old) at bytes.now) }
        ensures err { OnErr result (contents_of self.new ≡ contents_of self.old) }
        ensures waits { self.new.waits ≡ true }
        ensures faults { Faults self.old.faults self.new.faults result }
        ensures call { BlockCall self.old self.new result }
        ensures fails { is_err result ≡ fails_next (block_schedule self.old) }
    {
        self.waits = true;
        self.begin_call()?;
        put_over(&mut self.bytes, at as usize, bytes);
        Ok(())
    }

    fn flush(&mut self) -> Result<(), Failed>
        ensures same { Some (contents_of self.new) ≡ Some (contents_of self.old) }
        ensures ok { OnOk result (self.new.waits ≡ false) }
        ensures err { OnErr result (self.new.waits ≡ self.old.waits) }
        ensures faults { Faults self.old.faults self.new.faults result }
        ensures call { BlockCall self.old self.new result }
        ensures fails { is_err result ≡ fails_next (block_schedule self.old) }
    {
        self.begin_call()?;
        self.waits = false;
        Ok(())
    }

    fn ensure(&mut self, len: u64) -> Result<(), Failed>
        ensures ok { OnOk result (GrewTo len (contents_of self.old) (contents_of self.new)) }
        ensures err { OnErr result (contents_of self.new ≡ contents_of self.old) }
        ensures waits { self.new.waits ≡ true }
        ensures faults { Faults self.old.faults self.new.faults result }
        ensures call { BlockCall self.old self.new result }
        ensures fails { is_err result ≡ (fails_next (block_schedule self.old) || nat_lt (block_room self.old) len) }
    {
        self.waits = true;
        self.begin_call()?;
        if len > self.room as u64 {
            return Err(self.fault());
        }
        grow(&mut self.bytes, len as usize);
        Ok(())
    }
}

impl MemBlock {
    ghost use Rattle.ktm_mem.specs.Objects.{contents_of, block_room, block_schedule, BlockCall};
    ghost use Rattle.ktm_base.specs.Count.{raised};

    // Counts a call, and a fault where it fails.
    fn begin_call(&mut self) -> Result<(), Failed>
        ensures fails { is_err result ≡ fails_next (block_schedule self.old) }
        ensures faults { Faults self.old.faults self.new.faults result }
        ensures call { BlockCall self.old self.new result }
        ensures bytes { self.new.bytes ≡ self.old.bytes }
        ensures waits { self.new.waits ≡ self.old.waits }
    {
        if self.schedule.next_fails() {
            return Err(self.fault());
        }
        Ok(())
    }

    // Counts a fault.
    fn fault(&mut self) -> Failed
        ensures faults { self.new ≡ record self.old { faults = raised self.old.faults } }
        ensures later { self.old.faults ≤ self.new.faults }
    {
        self.faults = self.faults.saturating_add(1);
        Failed
    }
}
