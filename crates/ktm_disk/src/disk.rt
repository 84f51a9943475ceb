// The disk over a block.
ghost use Rattle.std.specs.Prelude.{◌≡◌, ℕ, ◌+◌, ◌<◌, ◌≤◌, [], None, false, Option, length, slice_range, IfOk, OnOk, OnErr, IsTrue, is_err, is_ok, if◌then◌else◌, vec_capacity, IfSome};
ghost use Rattle.ktm_base.specs.declared.limits.TheConstants.{MOST_PENDING};
ghost use Rattle.ktm_base.specs.Stream.{Faults};
ghost use Rattle.ktm_base.specs.Told.{Goes};
ghost use Rattle.ktm_base.specs.Disk.{DiskState, DiskStatus, Wrote, WriteRefused, Synced, Grew, GrowthRefused, DeviceCall, IsSafe};
ghost use Rattle.ktm_disk.specs.Status.{with_pending, status_at_start};
ghost use Rattle.ktm_disk.specs.Told.{IsLengthKnown, length_at_sync};

use crate::power::Power;
use ktm_base::{Block, Disk, Down, Failed, MOST_PENDING, NoMemory};
use std::alloc::Global;

/// A disk over a block device. It is up until a call of the block fails, and from then on it is down for good: no later
/// call reaches the block. What was written or added is safe once a sync has answered Ok. No call takes memory.
#[derive(Drop)]
pub struct BlockDisk<B: Block> {
    block: B,
    power: Power,
    // offset and length of each write since the last sync
    dirty: Vec<(u64, u64)>,
    // the length after the last sync, once a growth was tried since
    grown_from: Option<u64>,
    // the greatest length asked for since the last sync
    asked: u64,
    ghost has_room: { MOST_PENDING ≤ vec_capacity dirty },
    ghost is_length_known: { IsLengthKnown grown_from asked (B.contents block) },
}

impl<B: Block> Disk for BlockDisk<B> {
    ghost use Rattle.ktm_disk.specs.BlockDisk.{told_by, status_of, block_of, BlockCall};
    ghost use Rattle.ktm_disk.specs.Lengths.{known_lengths};

    ghost told = { told_by };

    ghost status = { status_of };

    fn len(&mut self) -> Result<u64, Down>
        ensures value { IfOk result (λ n. IfSome (told_by self.old) (λ s. n ≡ length s.seen)) }
        ensures same { told_by self.new ≡ told_by self.old }
        ensures pending { (status_of self.new).pending ≡ (status_of self.old).pending }
        ensures call { DeviceCall (status_of self.old) (status_of self.new) (is_err result) }
        ensures after { BlockCall self.old self.new (is_err result) }
    {
        self.power.admit()?;
        match self.block.len() {
            Ok(len) => Ok(len),
            Err(Failed) => Err(self.power.fall()),
        }
    }

    fn read_at(&mut self, at: u64, buf: &mut [u8]) -> Result<(), Down>
        requires { IfSome (told_by self.old) (λ s. at + length buf.old ≤ length s.seen) }
        ensures value { OnOk result (IfSome (told_by self.old) (λ s. buf.new ≡ slice_range s.seen at (at + length buf.old))) }
        ensures same { told_by self.new ≡ told_by self.old }
        ensures pending { (status_of self.new).pending ≡ (status_of self.old).pending }
        ensures call { DeviceCall (status_of self.old) (status_of self.new) (is_err result) }
        ensures after { BlockCall self.old self.new (is_err result) }
    {
        self.power.admit()?;
        match self.block.read_at(at, buf) {
            Ok(()) => Ok(()),
            Err(Failed) => Err(self.power.fall()),
        }
    }

    fn write_at(&mut self, at: u64, bytes: &[u8]) -> Result<(), Down>
        requires within { IfSome (told_by self.old) (λ s. at + length bytes.now ≤ length s.seen) }
        requires room { (status_of self.old).pending < MOST_PENDING }
        ensures ok { OnOk result (Goes (Wrote at bytes.now) (told_by self.old) (told_by self.new)) }
        ensures err { OnErr result ((status_of self.old).is_down ≡ false → Goes (WriteRefused at (length bytes.now)) (told_by self.old) (told_by self.new)) }
        ensures frozen { IsTrue (status_of self.old).is_down → told_by self.new ≡ told_by self.old }
        ensures pending { (status_of self.old).is_down ≡ false → (status_of self.new).pending ≡ (status_of self.old).pending + 1 }
        ensures call { DeviceCall (status_of self.old) (status_of self.new) (is_err result) }
        ensures after { BlockCall self.old self.new (is_err result) }
    {
        self.power.admit()?;
        let kept = self.dirty.push((at, bytes.len() as u64)).is_ok();
        prove!(kept);
        match self.block.write_at(at, bytes) {
            Ok(()) => Ok(()),
            Err(Failed) => Err(self.power.fall()),
        }
    }

    fn sync(&mut self) -> Result<(), Down>
        ensures ok { OnOk result (Goes Synced (told_by self.old) (told_by self.new)) }
        ensures err { OnErr result (told_by self.new ≡ told_by self.old) }
        ensures pending { (status_of self.new).pending ≡ (if is_ok result then 0 else (status_of self.old).pending) }
        ensures call { DeviceCall (status_of self.old) (status_of self.new) (is_err result) }
        ensures after { BlockCall self.old self.new (is_err result) }
        ensures flushed { OnOk result (B.waits (block_of self.new) ≡ false) }
    {
        self.power.admit()?;
        match self.block.flush() {
            Ok(()) => {
                self.forget();
                Ok(())
            }
            Err(Failed) => Err(self.power.fall()),
        }
    }

    fn ensure(&mut self, len: u64) -> Result<(), Down>
        ensures ok { OnOk result (Goes (Grew len) (told_by self.old) (told_by self.new)) }
        ensures err { OnErr result ((status_of self.old).is_down ≡ false → Goes (GrowthRefused len) (told_by self.old) (told_by self.new)) }
        ensures frozen { IsTrue (status_of self.old).is_down → told_by self.new ≡ told_by self.old }
        ensures pending { (status_of self.new).pending ≡ (status_of self.old).pending }
        ensures call { DeviceCall (status_of self.old) (status_of self.new) (is_err result) }
        ensures after { BlockCall self.old self.new (is_err result) }
    {
        self.power.admit()?;
        self.asked = self.asked.max(len);
        match self.grow(len) {
            Ok(()) => Ok(()),
            Err(Failed) => Err(self.power.fall()),
        }
    }

    ghost lengths = { λ d. known_lengths d.dirty.items d.grown_from d.asked (B.contents d.block) d.is_length_known };
}

impl<B: Block> BlockDisk<B> {
    ghost use Rattle.ktm_disk.specs.BlockDisk.{told_by, status_of, block_of};

    /// The block below.
    pub fn block(&self) -> &B
        ensures { result.now ≡ block_of self.now }
    {
        &self.block
    }

    /// Gives back the block below.
    pub fn into_block(self) -> B
        ensures { result ≡ block_of self }
    {
        let BlockDisk {
            block,
            power: _,
            dirty: _,
            grown_from: _,
            asked: _,
        } = self;
        block
    }

    /// Has a call of the block failed.
    pub fn is_down(&self) -> bool
        ensures { result ≡ (status_of self.now).is_down }
    {
        self.power.is_down()
    }

    // What is there now is what a loss of power leaves.
    fn forget(&mut self)
        ensures told { Goes Synced (told_by self.old) (told_by self.new) }
        ensures status { status_of self.new ≡ with_pending (status_of self.old) 0 }
        ensures block { block_of self.new ≡ block_of self.old }
    {
        self.dirty.clear();
        self.grown_from = None;
        self.asked = 0;
    }

    // Keeps the length after the last sync before it grows the block.
    fn grow(&mut self, len: u64) -> Result<(), Failed>
        requires { len ≤ self.old.asked }
        ensures ok { OnOk result (Goes (Grew len) (told_by self.old) (told_by self.new)) }
        ensures err { OnErr result (Goes (GrowthRefused len) (told_by self.old) (told_by self.new)) }
        ensures power { self.new.power ≡ self.old.power }
        ensures dirty { self.new.dirty.items ≡ self.old.dirty.items }
        ensures faults { Faults (B.faults (block_of self.old)) (B.faults (block_of self.new)) result }
    {
        self.grown_from = Some(length_after_sync(&mut self.block, self.grown_from)?);
        self.block.ensure(len)
    }
}

impl<B: Block + Drop> BlockDisk<B> {
    ghost use Rattle.ktm_disk.specs.BlockDisk.{told_by, status_of, block_of};

    /// A disk that is up, of which nothing is dirty. It calls the block only in later calls.
    pub fn new(alloc: Global, block: B) -> Result<BlockDisk<B>, NoMemory>
        ensures block { IfOk result (λ d. block_of d ≡ block) }
        ensures status { IfOk result (λ d. status_of d ≡ status_at_start) }
        ensures safe { IfOk result (λ d. IfSome (told_by d) IsSafe) }
    {
        Ok(BlockDisk {
            block,
            power: Power::new(),
            dirty: Vec::with_capacity(alloc, MOST_PENDING)?,
            grown_from: None,
            asked: 0,
        })
    }
}

/// The length after the last sync of a block, which a growth that was tried since has kept.
pub fn length_after_sync<B: Block>(block: &mut B, grown_from: Option<u64>) -> Result<u64, Failed>
    ensures value { IfOk result (λ n. IfSome (B.contents block.old) (λ bytes. n ≡ length_at_sync grown_from (length bytes))) }
    ensures same { B.contents block.new ≡ B.contents block.old }
    ensures faults { Faults (B.faults block.old) (B.faults block.new) result }
{
    match grown_from {
        Some(from) => Ok(from),
        None => block.len(),
    }
}
