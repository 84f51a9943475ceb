// A disk whose power can be cut and given back, and the list of what was asked.
ghost use Rattle.std.specs.Prelude.{◌≡◌, ℕ, ◌<◌, ◌≤◌, max, OnOk, OnErr};
ghost use Rattle.ktm_base.specs.Told.{Goes};
ghost use Rattle.ktm_base.specs.Power.{after_arm, after_off, Powers, Restored, NotRestored};

use crate::{Disk, Down, NoMemory};
use std::alloc::Global;

/// What was asked of the power of a disk.
#[derive(Clone, Copy)]
pub enum PowerCall {
    Arm(u64),
    Off,
    Power(u64),
}

/// A disk whose power can be cut and given back. It keeps the list of these calls, its plan. None of them is a device
/// call, and none but `plan_room` takes memory.
pub trait PowerDisk: Disk {
    /// Lets `calls` more device calls pass and takes the disk down in the next one. A call while the disk is down takes
    /// effect once the power is back; a second call takes the place of the first.
    fn arm(&mut self, calls: u64)
        requires { 0 < (Self.status self.old).places }
        ensures status { Self.status self.new ≡ after_arm (Self.status self.old) calls }
        ensures same { Self.told self.new ≡ Self.told self.old };

    /// Takes the disk down, and forgets an earlier `arm`.
    fn off(&mut self)
        requires { 0 < (Self.status self.old).places }
        ensures status { Self.status self.new ≡ after_off (Self.status self.old) }
        ensures same { Self.told self.new ≡ Self.told self.old };

    /// Gives the power back. What was dirty holds some bytes, which `pick` chooses. Down comes only where the count of
    /// downs rose in the call, and then the disk is still down.
    fn power(&mut self, pick: u64) -> Result<(), Down>
        requires { 0 < (Self.status self.old).places }
        ensures status { Powers result (Self.status self.old) pick (Self.status self.new) }
        ensures ok { OnOk result (Goes Restored (Self.told self.old) (Self.told self.new)) }
        ensures err { OnErr result (Goes NotRestored (Self.told self.old) (Self.told self.new)) };

    /// Makes room for at least two entries of the plan, the most that one line of a script takes. Where memory is not to
    /// be had nothing changes.
    fn plan_room(&mut self, alloc: Global) -> Result<(), NoMemory>
        ensures ok { OnOk result (2 ≤ (Self.status self.new).places) }
        ensures grows { (Self.status self.old).places ≤ (Self.status self.new).places }
        ensures others { Self.status self.new ≡ record (Self.status self.old) { places = (Self.status self.new).places } }
        ensures err { OnErr result (Self.status self.new ≡ Self.status self.old) }
        ensures same { Self.told self.new ≡ Self.told self.old };
}
