// The power of a disk.
ghost use Rattle.std.specs.Prelude.{◌≡◌, ◌⊎◌, ℕ, ◌+◌, ◌<◌, ◌≤◌, [], Some, None, false, IsTrue, OnOk, OnErr, is_err};
ghost use Rattle.ktm_base.specs.Disk.{DiskStatus, DeviceCall};
ghost use Rattle.ktm_base.specs.Power.{after_arm, after_off, planned, Powers};
ghost use Rattle.ktm_disk.specs.Status.{after_call, fallen, status_at_start};

use ktm_base::{Down, NoMemory, PowerCall};
use std::alloc::Global;
use std::marker::Model;

/// Whether a disk has power, how often it lost it, how many calls it had, and the plan. It knows of no write.
#[derive(Drop)]
pub struct Switch {
    is_down: bool,
    downs: u64,
    calls: u64,
    armed: Option<u64>,
    plan: Vec<PowerCall>,
    places: usize,
}

impl Model for Switch {
    ghost use Rattle.std.specs.Prelude.{◌+◌, ◌≤◌, vec_len, vec_capacity};
    ghost use Rattle.ktm_base.specs.Disk.{DiskStatus};

    ghost Value = { DiskStatus };

    ghost view = { λ s. record { is_down = s.is_down; downs = s.downs; calls = s.calls; pending = 0; armed = s.armed; plan = s.plan.items; places = s.places } };

    ghost invariant = { λ s. vec_len s.plan + s.places ≤ vec_capacity s.plan };
}

impl Switch {
    pub fn new(alloc: Global) -> Self
        ensures { result ≡ status_at_start }
    {
        Switch {
            is_down: false,
            downs: 0,
            calls: 0,
            armed: None,
            plan: Vec::new(alloc),
            places: 0,
        }
    }

    pub fn is_down(&self) -> bool
        ensures { result ≡ self.now.is_down }
    {
        self.is_down
    }

    pub fn plan(&self) -> &[PowerCall]
        ensures { result.now ≡ self.now.plan }
    {
        &self.plan
    }

    /// Counts a device call, and refuses it where there is no power.
    pub fn admit(&mut self) -> Result<(), Down>
        ensures call { DeviceCall self.old self.new (is_err result) }
        ensures counts { self.new ≡ after_call self.old (is_err result) }
        ensures cause { OnErr result (IsTrue self.old.is_down ⊎ (self.old.armed ≡ Some 0)) }
    {
        self.calls = self.calls.saturating_add(1);
        if self.is_down {
            return Err(Down);
        }
        match self.armed {
            None => Ok(()),
            Some(0) => {
                self.armed = None;
                Err(self.fall())
            }
            Some(calls) => {
                self.armed = Some(calls - 1);
                Ok(())
            }
        }
    }

    /// Goes down.
    pub fn fall(&mut self) -> Down
        ensures state { self.new ≡ fallen self.old }
        ensures later { self.old.downs ≤ self.new.downs }
    {
        self.is_down = true;
        self.downs = self.downs.saturating_add(1);
        Down
    }

    pub fn arm(&mut self, calls: u64)
        requires { 0 < self.old.places }
        ensures { self.new ≡ after_arm self.old calls }
    {
        self.note(PowerCall::Arm(calls));
        self.armed = Some(calls);
    }

    pub fn off(&mut self)
        requires { 0 < self.old.places }
        ensures { self.new ≡ after_off self.old }
    {
        self.note(PowerCall::Off);
        self.armed = None;
        self.fall();
    }

    /// Has power again.
    pub fn rise(&mut self)
        ensures { self.new ≡ record self.old { is_down = false } }
    {
        self.is_down = false;
    }

    /// Adds an entry to the plan.
    pub fn note(&mut self, call: PowerCall)
        requires { 0 < self.old.places }
        ensures { self.new ≡ planned self.old call }
    {
        let noted = self.plan.push(call).is_ok();
        prove!(noted);
        self.places -= 1;
    }

    /// Makes room for two entries of the plan.
    pub fn plan_room(&mut self) -> Result<(), NoMemory>
        ensures ok { OnOk result (2 ≤ self.new.places) }
        ensures grows { self.old.places ≤ self.new.places }
        ensures others { self.new ≡ record self.old { places = self.new.places } }
        ensures err { OnErr result (self.new ≡ self.old) }
        ensures full { OnErr result (self.old.places < 2) }
    {
        if self.places < 2 {
            self.plan.reserve(2)?;
            self.places = self.plan.capacity() - self.plan.len();
        }
        Ok(())
    }
}
