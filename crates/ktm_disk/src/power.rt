// The power of a disk that nobody cuts.
ghost use Rattle.std.specs.Prelude.{◌≡◌, ◌≤◌, IsTrue, OnErr, is_err};
ghost use Rattle.ktm_base.specs.Disk.{DiskStatus, DeviceCall};
ghost use Rattle.ktm_disk.specs.Status.{after_call, fallen, status_at_start};

use ktm_base::Down;
use std::marker::Model;

/// Whether a disk has power, how often it lost it, and how many calls it had. It knows of no write, and has no plan.
#[derive(Drop)]
pub struct Power {
    is_down: bool,
    downs: u64,
    calls: u64,
}

impl Model for Power {
    ghost use Rattle.std.specs.Prelude.{[], None};
    ghost use Rattle.ktm_base.specs.Disk.{DiskStatus};

    ghost Value = { DiskStatus };

    ghost view = { λ p. record { is_down = p.is_down; downs = p.downs; calls = p.calls; pending = 0; armed = None; plan = []; places = 0 } };
}

impl Power {
    pub fn new() -> Self
        ensures { result ≡ status_at_start }
    {
        Power {
            is_down: false,
            downs: 0,
            calls: 0,
        }
    }

    pub fn is_down(&self) -> bool
        ensures { result ≡ self.now.is_down }
    {
        self.is_down
    }

    /// Counts a device call, and refuses it where there is no power.
    pub fn admit(&mut self) -> Result<(), Down>
        ensures call { DeviceCall self.old self.new (is_err result) }
        ensures counts { self.new ≡ after_call self.old (is_err result) }
        ensures cause { OnErr result (IsTrue self.old.is_down) }
    {
        self.calls = self.calls.saturating_add(1);
        if self.is_down {
            return Err(Down);
        }
        Ok(())
    }

    /// Goes down.
    pub fn fall(&mut self) -> Down
        ensures state { self.new ≡ fallen self.old }
        ensures later { self.old.downs ≤ self.new.downs }
    {
        self.is_down = true;
        self.downs = self.downs.saturating_add(1);
        Down
    }
}
