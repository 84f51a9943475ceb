// The disk over a block.
ghost use Rattle.std.specs.Prelude.{◌≡◌, ◌⊎◌, ℕ, ◌+◌, ◌<◌, ◌≤◌, [], Some, None, false, Option, length, slice_range, IfOk, OnOk, OnErr, IsTrue, is_err, is_ok, if◌then◌else◌, vec_capacity, IfSome};
ghost use Rattle.ktm_base.specs.declared.limits.TheConstants.{MOST_PENDING};
ghost use Rattle.ktm_base.specs.Count.{Rose};
ghost use Rattle.ktm_base.specs.Stream.{Faults};
ghost use Rattle.ktm_base.specs.Told.{Goes};
ghost use Rattle.ktm_base.specs.Disk.{DiskState, DiskStatus, Wrote, WriteRefused, Synced, Grew, GrowthRefused, DeviceCall, IsSafe};
ghost use Rattle.ktm_base.specs.Power.{after_arm, after_off, Powers, Restored, NotRestored};
ghost use Rattle.ktm_disk.specs.Status.{with_pending, status_at_start};
ghost use Rattle.ktm_cut.specs.Left.{left_of};
ghost use Rattle.ktm_cut.specs.Sure.{IsDirtySure};
ghost use Rattle.ktm_disk.specs.Told.{IsLengthKnown};

use crate::settle::settle;
use crate::switch::Switch;
use ktm_base::{Block, Disk, Down, Failed, MOST_PENDING, NoMemory, PowerCall, PowerDisk};
use ktm_disk::length_after_sync;
use std::alloc::Global;

/// A disk over a block device.
#[derive(Drop)]
pub struct CutDisk<B: Block> {
    block: B,
    switch: Switch,
    dirty: Vec<(u64, u64)>,
    // the length after the last sync, once a growth was tried since
    grown_from: Option<u64>,
    // the greatest length asked for since the last sync
    asked: u64,
    ghost has_room: { MOST_PENDING ≤ vec_capacity dirty },
    ghost is_length_known: { IsLengthKnown grown_from asked (B.contents block) },
}

impl<B: Block> Disk for CutDisk<B> {
    ghost use Rattle.ktm_cut.specs.Cut.{told_by, status_of, block_of, CutCall};
    ghost use Rattle.ktm_disk.specs.Lengths.{known_lengths};

    ghost told = { told_by };

    ghost status = { status_of };

    fn len(&mut self) -> Result<u64, Down>
        ensures value { IfOk result (λ n. IfSome (told_by self.old) (λ s. n ≡ length s.seen)) }
        ensures same { told_by self.new ≡ told_by self.old }
        ensures pending { (status_of self.new).pending ≡ (status_of self.old).pending }
        ensures call { DeviceCall (status_of self.old) (status_of self.new) (is_err result) }
        ensures after { CutCall self.old self.new (is_err result) }
    {
        self.switch.admit()?;
        match self.block.len() {
            Ok(len) => Ok(len),
            Err(Failed) => Err(self.switch.fall()),
        }
    }

    fn read_at(&mut self, at: u64, buf: &mut [u8]) -> Result<(), Down>
        requires { IfSome (told_by self.old) (λ s. at + length buf.old ≤ length s.seen) }
        ensures value { OnOk result (IfSome (told_by self.old) (λ s. buf.new ≡ slice_range s.seen at (at + length buf.old))) }
        ensures same { told_by self.new ≡ told_by self.old }
        ensures pending { (status_of self.new).pending ≡ (status_of self.old).pending }
        ensures call { DeviceCall (status_of self.old) (status_of self.new) (is_err result) }
        ensures after { CutCall self.old self.new (is_err result) }
    {
        self.switch.admit()?;
        match self.block.read_at(at, buf) {
            Ok(()) => Ok(()),
            Err(Failed) => Err(self.switch.fall()),
        }
    }

    fn write_at(&mut self, at: u64, bytes: &[u8]) -> Result<(), Down>
        requires within { IfSome (told_by self.old) (λ s. at + length bytes.now ≤ length s.seen) }
        requires room { (status_of self.old).pending < MOST_PENDING }
        ensures ok { OnOk result (Goes (Wrote at bytes.now) (told_by self.old) (told_by self.new)) }
        ensures err { OnErr result ((status_of self.old).is_down ≡ false → Goes (WriteRefused at (length bytes.now)) (told_by self.old) (told_by self.new)) }
        ensures frozen { IsTrue (status_of self.old).is_down → told_by self.new ≡ told_by self.old }
        ensures pending { (status_of self.old).is_down ≡ false → (status_of self.new).pending ≡ (status_of self.old).pending + 1 }
        ensures call { DeviceCall (status_of self.old) (status_of self.new) (is_err result) }
        ensures after { CutCall self.old self.new (is_err result) }
    {
        if !self.switch.is_down() {
            let kept = self.dirty.push((at, bytes.len() as u64)).is_ok();
            prove!(kept);
        }
        self.switch.admit()?;
        match self.block.write_at(at, bytes) {
            Ok(()) => Ok(()),
            Err(Failed) => Err(self.switch.fall()),
        }
    }

    fn sync(&mut self) -> Result<(), Down>
        ensures ok { OnOk result (Goes Synced (told_by self.old) (told_by self.new)) }
        ensures err { OnErr result (told_by self.new ≡ told_by self.old) }
        ensures pending { (status_of self.new).pending ≡ (if is_ok result then 0 else (status_of self.old).pending) }
        ensures call { DeviceCall (status_of self.old) (status_of self.new) (is_err result) }
        ensures after { CutCall self.old self.new (is_err result) }
        ensures flushed { OnOk result (B.waits (block_of self.new) ≡ false) }
    {
        self.switch.admit()?;
        match self.block.flush() {
            Ok(()) => {
                self.forget();
                Ok(())
            }
            Err(Failed) => Err(self.switch.fall()),
        }
    }

    fn ensure(&mut self, len: u64) -> Result<(), Down>
        ensures ok { OnOk result (Goes (Grew len) (told_by self.old) (told_by self.new)) }
        ensures err { OnErr result ((status_of self.old).is_down ≡ false → Goes (GrowthRefused len) (told_by self.old) (told_by self.new)) }
        ensures frozen { IsTrue (status_of self.old).is_down → told_by self.new ≡ told_by self.old }
        ensures pending { (status_of self.new).pending ≡ (status_of self.old).pending }
        ensures call { DeviceCall (status_of self.old) (status_of self.new) (is_err result) }
        ensures after { CutCall self.old self.new (is_err result) }
    {
        if !self.switch.is_down() {
            self.asked = self.asked.max(len);
        }
        self.switch.admit()?;
        match self.grow(len) {
            Ok(()) => Ok(()),
            Err(Failed) => Err(self.switch.fall()),
        }
    }

    ghost lengths = { λ d. known_lengths d.dirty.items d.grown_from d.asked (B.contents d.block) d.is_length_known };
}

impl<B: Block> PowerDisk for CutDisk<B> {
    ghost use Rattle.ktm_cut.specs.Cut.{told_by, status_of, block_of};

    fn arm(&mut self, calls: u64)
        requires { 0 < (status_of self.old).places }
        ensures status { status_of self.new ≡ after_arm (status_of self.old) calls }
        ensures same { told_by self.new ≡ told_by self.old }
        ensures block { block_of self.new ≡ block_of self.old }
    {
        self.switch.arm(calls);
    }

    fn off(&mut self)
        requires { 0 < (status_of self.old).places }
        ensures status { status_of self.new ≡ after_off (status_of self.old) }
        ensures same { told_by self.new ≡ told_by self.old }
        ensures block { block_of self.new ≡ block_of self.old }
    {
        self.switch.off();
    }

    fn power(&mut self, pick: u64) -> Result<(), Down>
        requires { 0 < (status_of self.old).places }
        ensures status { Powers result (status_of self.old) pick (status_of self.new) }
        ensures ok { OnOk result (Goes Restored (told_by self.old) (told_by self.new)) }
        ensures err { OnErr result (Goes NotRestored (told_by self.old) (told_by self.new)) }
        ensures left { OnOk result (Goes (λ old new. new.seen ≡ left_of pick old.dirty old.shortest old.seen) (told_by self.old) (told_by self.new)) }
        ensures kept { OnOk result (Goes (λ old new. IsDirtySure old.dirty old.shortest (B.is_doubted (block_of self.new)) new.seen) (told_by self.old) (told_by self.new)) }
        ensures cause { OnErr result (Rose (B.faults (block_of self.old)) (B.faults (block_of self.new))) }
        ensures faults { B.faults (block_of self.old) ≤ B.faults (block_of self.new) }
        ensures flushed { OnOk result (B.waits (block_of self.new) ≡ false) }
    {
        self.switch.note(PowerCall::Power(pick));
        match settle(&mut self.block, pick, &self.dirty, self.grown_from) {
            Ok(()) => {
                self.forget();
                self.switch.rise();
                Ok(())
            }
            Err(Failed) => Err(self.switch.fall()),
        }
    }

    fn plan_room(&mut self, _alloc: Global) -> Result<(), NoMemory>
        ensures ok { OnOk result (2 ≤ (status_of self.new).places) }
        ensures grows { (status_of self.old).places ≤ (status_of self.new).places }
        ensures others { status_of self.new ≡ record (status_of self.old) { places = (status_of self.new).places } }
        ensures err { OnErr result (status_of self.new ≡ status_of self.old) }
        ensures full { OnErr result ((status_of self.old).places < 2) }
        ensures same { told_by self.new ≡ told_by self.old }
        ensures block { block_of self.new ≡ block_of self.old }
    {
        self.switch.plan_room()
    }
}

impl<B: Block> CutDisk<B> {
    ghost use Rattle.ktm_cut.specs.Cut.{told_by, status_of, block_of};

    /// The block below.
    pub fn block(&self) -> &B
        ensures { result.now ≡ block_of self.now }
    {
        &self.block
    }

    /// Gives back the block below.
    pub fn into_block(self) -> B
        ensures { result ≡ block_of self }
    {
        let CutDisk {
            block,
            switch: _,
            dirty: _,
            grown_from: _,
            asked: _,
        } = self;
        block
    }

    /// What was asked of the power, in order.
    pub fn plan(&self) -> &[PowerCall]
        ensures { result.now ≡ (status_of self.now).plan }
    {
        self.switch.plan()
    }

    // What is there now is what a loss of power leaves.
    fn forget(&mut self)
        ensures told { Goes Synced (told_by self.old) (told_by self.new) }
        ensures status { status_of self.new ≡ with_pending (status_of self.old) 0 }
        ensures block { block_of self.new ≡ block_of self.old }
    {
        self.dirty.clear();
        self.grown_from = None;
        self.asked = 0;
    }

    // Keeps the length after the last sync before it grows the block.
    fn grow(&mut self, len: u64) -> Result<(), Failed>
        requires { len ≤ self.old.asked }
        ensures ok { OnOk result (Goes (Grew len) (told_by self.old) (told_by self.new)) }
        ensures err { OnErr result (Goes (GrowthRefused len) (told_by self.old) (told_by self.new)) }
        ensures switch { self.new.switch ≡ self.old.switch }
        ensures dirty { self.new.dirty.items ≡ self.old.dirty.items }
        ensures faults { Faults (B.faults (block_of self.old)) (B.faults (block_of self.new)) result }
    {
        self.grown_from = Some(length_after_sync(&mut self.block, self.grown_from)?);
        self.block.ensure(len)
    }
}

impl<B: Block + Drop> CutDisk<B> {
    ghost use Rattle.ktm_cut.specs.Cut.{told_by, status_of, block_of};

    /// A disk with power, of which nothing is dirty. It calls the block only in later calls.
    pub fn new(alloc: Global, block: B) -> Result<CutDisk<B>, NoMemory>
        ensures block { IfOk result (λ d. block_of d ≡ block) }
        ensures status { IfOk result (λ d. status_of d ≡ status_at_start) }
        ensures safe { IfOk result (λ d. IfSome (told_by d) IsSafe) }
    {
        Ok(CutDisk {
            block,
            switch: Switch::new(alloc),
            dirty: Vec::with_capacity(alloc, MOST_PENDING)?,
            grown_from: None,
            asked: 0,
        })
    }
}
