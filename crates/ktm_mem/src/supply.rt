// The power of a disk in memory.
ghost use Rattle.std.specs.Prelude.{◌≡◌, ◌||◌, ℕ, IsTrue, is_err, true, false};
ghost use Rattle.ktm_base.specs.Count.{raised};
ghost use Rattle.ktm_base.specs.Disk.{DiskStatus, DeviceCall};
ghost use Rattle.ktm_mem.specs.Schedule.{fails_next};

use crate::schedule::Schedule;
use ktm_base::Down;

/// Whether the power is off, how often it went, and at which calls it goes.
#[derive(Drop)]
pub struct Supply {
    pub schedule: Schedule,
    pub is_down: bool,
    pub downs: u64,
}

impl Supply {
    ghost use Rattle.ktm_mem.specs.PowerSupply.{status_with, supply_after};

    /// Begins a device call, and is down from the first one on that fails.
    pub fn begin_call(&mut self) -> Result<(), Down>
        ensures down { is_err result ≡ (self.old.is_down || fails_next self.old.schedule) }
        ensures after { self.new ≡ supply_after self.old (is_err result) }
        ensures call { (before after : ℕ) → (IsTrue self.old.is_down → after ≡ before)
            → DeviceCall (status_with self.old before) (status_with self.new after) (is_err result) }
    {
        let fails = self.schedule.next_fails();
        if self.is_down {
            return Err(Down);
        }
        if fails {
            self.is_down = true;
            self.downs = self.downs.saturating_add(1);
            return Err(Down);
        }
        Ok(())
    }

    /// Turns the power off in a call that had begun.
    pub fn fall(&mut self) -> Down
        ensures off { self.new ≡ record self.old { is_down = true; downs = raised self.old.downs } }
        ensures call { (old : DiskStatus) (pending : ℕ) → DeviceCall old (status_with self.old pending) false
            → DeviceCall old (status_with self.new pending) true }
    {
        self.is_down = true;
        self.downs = self.downs.saturating_add(1);
        Down
    }
}
