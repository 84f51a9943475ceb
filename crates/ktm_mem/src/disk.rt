// A disk in memory.
ghost use Rattle.std.specs.Prelude.{◌≡◌, ◌≤◌, ◌<◌, ◌+◌, ◌||◌, ℕ, List, Some, None, [], ◌∷◌, length, IfOk, OnOk, OnErr, IsTrue, is_err, is_ok, nat_lt, vec_capacity, slice_range, max, false, if◌then◌else◌, IfSome};
ghost use Rattle.ktm_base.specs.declared.limits.TheConstants.{MOST_PENDING};
ghost use Rattle.ktm_base.specs.Told.{Goes};
ghost use Rattle.ktm_base.specs.Disk.{DiskState, DiskStatus, Wrote, WriteRefused, Synced, Grew, GrowthRefused, DeviceCall};
ghost use Rattle.ktm_mem.specs.Schedule.{fails_next};

use crate::contents::{grow, put_over};
use crate::schedule::{Calls, Schedule};
use crate::supply::Supply;
use ktm_base::{Bytes, Disk, Down, MOST_PENDING, NoMemory};
use std::alloc::Global;

/// Keeps its bytes. It goes down at the first call that fails, or that asks for a length beyond its room, and stays down.
/// A call that it refuses changes none of its bytes, and a buffer that it was to fill is as it was.
#[derive(Drop)]
pub struct MemDisk {
    bytes: Vec<u8>,
    dirty: Vec<(u64, u64)>,
    shortest: u64,
    longest: u64,
    room: u64,
    supply: Supply,
    ghost within: { length bytes.items ≤ room },
    ghost no_shorter: { shortest ≤ length bytes.items },
    ghost no_longer: { length bytes.items ≤ longest },
    ghost room_taken: { room ≤ vec_capacity bytes },
    ghost places_taken: { MOST_PENDING ≤ vec_capacity dirty },
}

impl MemDisk {
    ghost use Rattle.ktm_mem.specs.DiskInMemory.{state_of, status_of, disk_room, disk_schedule};

    /// Up, with these bytes, all of them safe, and with room for so many in all.
    pub fn new(alloc: Global, bytes: Bytes, room: usize, fails: Calls) -> Result<Self, NoMemory>
        requires { length bytes ≤ room }
        ensures state { IfOk result (λ disk. state_of disk ≡ record { seen = bytes; dirty = []; shortest = length bytes; longest = length bytes }) }
        ensures status { IfOk result (λ disk. status_of disk ≡
            record { is_down = false; downs = 0; calls = 0; pending = 0; armed = None; plan = []; places = 0 }) }
        ensures room { IfOk result (λ disk. disk_room disk ≡ room) }
        ensures schedule { IfOk result (λ disk. disk_schedule disk ≡ record { fails = fails; calls = 0 }) }
    {
        let mut bytes = bytes.into_vec();
        bytes.reserve(room - bytes.len())?;
        let len = bytes.len() as u64;
        Ok(MemDisk {
            bytes,
            dirty: Vec::with_capacity(alloc, MOST_PENDING)?,
            shortest: len,
            longest: len,
            room: room as u64,
            supply: Supply {
                schedule: Schedule::new(fails),
                is_down: false,
                downs: 0,
            },
        })
    }

    /// What a read sees.
    pub fn bytes(&self) -> &[u8]
        ensures { result.now ≡ (state_of self.now).seen }
    {
        &self.bytes
    }
}

impl Disk for MemDisk {
    ghost use Rattle.ktm_mem.specs.DiskInMemory.{state_of, status_of, disk_room, refuses_next, DiskCall};

    ghost told = { λ d. Some (state_of d) };

    ghost status = { status_of };

    fn len(&mut self) -> Result<u64, Down>
        ensures value { IfOk result (λ n. n ≡ length (state_of self.old).seen) }
        ensures same { Some (state_of self.new) ≡ Some (state_of self.old) }
        ensures pending { (status_of self.new).pending ≡ (status_of self.old).pending }
        ensures call { DeviceCall (status_of self.old) (status_of self.new) (is_err result) }
        ensures fails { is_err result ≡ refuses_next self.old }
        ensures after { DiskCall self.old self.new (is_err result) }
    {
        if let Err(Down) = self.supply.begin_call() {
            return Err(Down);
        }
        Ok(self.bytes.len() as u64)
    }

    fn read_at(&mut self, at: u64, buf: &mut [u8]) -> Result<(), Down>
        requires { at + length buf.old ≤ length (state_of self.old).seen }
        ensures value { OnOk result (buf.new ≡ slice_range (state_of self.old).seen at (at + length buf.old)) }
        ensures same { Some (state_of self.new) ≡ Some (state_of self.old) }
        ensures pending { (status_of self.new).pending ≡ (status_of self.old).pending }
        ensures call { DeviceCall (status_of self.old) (status_of self.new) (is_err result) }
        ensures refused { OnErr result (buf.new ≡ buf.old) }
        ensures fails { is_err result ≡ refuses_next self.old }
        ensures after { DiskCall self.old self.new (is_err result) }
    {
        if let Err(Down) = self.supply.begin_call() {
            return Err(Down);
        }
        let at = at as usize;
        buf.copy_from_slice(&self.bytes[at..at + buf.len()]);
        Ok(())
    }

    fn write_at(&mut self, at: u64, bytes: &[u8]) -> Result<(), Down>
        requires within { at + length bytes.now ≤ length (state_of self.old).seen }
        requires room { (status_of self.old).pending < MOST_PENDING }
        ensures ok { OnOk result (Wrote at bytes.now (state_of self.old) (state_of self.new)) }
        ensures err { OnErr result ((status_of self.old).is_down ≡ false → WriteRefused at (length bytes.now) (state_of self.old) (state_of self.new)) }
        ensures frozen { IsTrue (status_of self.old).is_down → Some (state_of self.new) ≡ Some (state_of self.old) }
        ensures pending { (status_of self.old).is_down ≡ false → (status_of self.new).pending ≡ (status_of self.old).pending + 1 }
        ensures call { DeviceCall (status_of self.old) (status_of self.new) (is_err result) }
        ensures fails { is_err result ≡ refuses_next self.old }
        ensures after { DiskCall self.old self.new (is_err result) }
    {
        let was_down = self.supply.is_down;
        let begun = self.supply.begin_call();
        if !was_down {
            self.dirty.push_reserved((at, bytes.len() as u64));
        }
        if begun.is_err() {
            return Err(Down);
        }
        put_over(&mut self.bytes, at as usize, bytes);
        Ok(())
    }

    fn sync(&mut self) -> Result<(), Down>
        ensures ok { OnOk result (Synced (state_of self.old) (state_of self.new)) }
        ensures err { OnErr result (Some (state_of self.new) ≡ Some (state_of self.old)) }
        ensures pending { (status_of self.new).pending ≡ (if is_ok result then 0 else (status_of self.old).pending) }
        ensures call { DeviceCall (status_of self.old) (status_of self.new) (is_err result) }
        ensures fails { is_err result ≡ refuses_next self.old }
        ensures after { DiskCall self.old self.new (is_err result) }
    {
        if let Err(Down) = self.supply.begin_call() {
            return Err(Down);
        }
        self.dirty.clear();
        self.shortest = self.bytes.len() as u64;
        self.longest = self.shortest;
        Ok(())
    }

    fn ensure(&mut self, len: u64) -> Result<(), Down>
        ensures ok { OnOk result (Grew len (state_of self.old) (state_of self.new)) }
        ensures err { OnErr result ((status_of self.old).is_down ≡ false → GrowthRefused len (state_of self.old) (state_of self.new)) }
        ensures frozen { IsTrue (status_of self.old).is_down → Some (state_of self.new) ≡ Some (state_of self.old) }
        ensures pending { (status_of self.new).pending ≡ (status_of self.old).pending }
        ensures call { DeviceCall (status_of self.old) (status_of self.new) (is_err result) }
        ensures fails { is_err result ≡ (refuses_next self.old || nat_lt (disk_room self.old) len) }
        ensures after { DiskCall self.old self.new (is_err result) }
    {
        let was_down = self.supply.is_down;
        let begun = self.supply.begin_call();
        if !was_down {
            self.longest = self.longest.max(len);
        }
        if begun.is_err() {
            return Err(Down);
        }
        if len > self.room {
            return Err(self.supply.fall());
        }
        grow(&mut self.bytes, len as usize);
        Ok(())
    }

    ghost lengths = { λ d. record { no_shorter = d.no_shorter; no_longer = d.no_longer } };
}
