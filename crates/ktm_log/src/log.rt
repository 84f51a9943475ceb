// The log of an area, and how it grows.
ghost use Rattle.std.specs.Prelude.{◌≡◌, ◌+◌, ◌^◌, ◌<◌, ◌≤◌, length, IfSome};
ghost use Rattle.ktm_base.specs.declared.limits.TheConstants.{MOST_PENDING};
ghost use Rattle.ktm_log.specs.Append.{AppendLeaves};
ghost use Rattle.ktm_log.specs.OnDisk.{on};
ghost use Rattle.ktm_log.specs.Scan.{ScanLeaves};

use crate::fault::FrameFault;
use crate::load::next_frame;
use crate::settling::settle;
use crate::{AppendFault, Area, LogFault};
use ktm_base::{Disk, Down};
use std::marker::Model;

/// A log that may grow. It knows where its closed gate is, and none of its payloads.
#[derive(Drop)]
pub struct Log {
    area: Area,
    end: u64,
}

impl Model for Log {
    ghost use Rattle.std.specs.Prelude.{◌+◌, ◌^◌, ◌<◌, ◌≤◌};
    ghost use Rattle.ktm_log.specs.Log.{LogState};

    ghost Value = { LogState };

    ghost view = { λ l. record { area = l.area; end = l.end } };

    ghost invariant = { λ l. (l.area.at + l.area.len < 2 ^ 63) × (l.end + 1 ≤ l.area.len) };
}

impl Log {
    /// The log of an area that begins with a closed gate. The disk is not looked at.
    pub fn empty(area: Area) -> Log
        requires there { 0 < area.len }
        requires small { area.at + area.len < 2 ^ 63 }
        ensures { result ≡ record { area = area; end = 0 } }
    {
        Log { area, end: 0 }
    }

    /// Reads a log from its begin into the buffer, no further than it needs to find the closed gate. The payloads stay in
    /// the buffer, where `first_payload` finds them. It takes memory only where the buffer has less than the area's length.
    pub fn scan<D: Disk>(disk: &mut D, area: Area, buffer: &mut Vec<u8>) -> Result<Log, LogFault>
        requires there { 0 < area.len }
        requires small { area.at + area.len < 2 ^ 63 }
        requires within { IfSome (D.told disk.old) (λ s. area.at + area.len ≤ length s.seen) }
        ensures { ScanLeaves area (on buffer.old (D.told disk.old) (D.status disk.old)) (on buffer.new (D.told disk.new) (D.status disk.new)) result }
    {
        buffer.clear();
        let Ok(()) = buffer.reserve(area.len as usize) else {
            return Err(LogFault::NoMemory);
        };
        let mut end = 0;
        loop {
            match next_frame(disk, area, buffer, end) {
                Ok(Some(size)) => end += size + 5,
                Ok(None) => return Ok(Log { area, end }),
                Err(FrameFault::Down) => return Err(LogFault::Down),
                Err(FrameFault::Torn) => return Err(LogFault::Bad(area.at + end)),
            }
        }
    }

    /// Adds a frame, of which it is given what stands behind the gate: the length of the payload, the payload, and a closed
    /// gate. It takes no memory and copies nothing, and makes four device calls: this body is written and synced before
    /// the frame's own gate is opened and synced. Where the disk went down the frame may be there or not, and only a scan
    /// can tell.
    pub fn append<D: Disk>(&mut self, disk: &mut D, body: &[u8]) -> Result<(), AppendFault>
        requires pending { (D.status disk.old).pending < MOST_PENDING }
        requires within { IfSome (D.told disk.old) (λ s. self.old.area.at + self.old.area.len ≤ length s.seen) }
        ensures { AppendLeaves body.now (on self.old (D.told disk.old) (D.status disk.old)) (on self.new (D.told disk.new) (D.status disk.new)) result }
    {
        if self.spare() < body.len() as u64 {
            return Err(AppendFault::Full);
        }
        let gate = self.area.at + self.end;
        if let Err(Down) = settle(disk, gate + 1, body) {
            return Err(AppendFault::Down);
        }
        if let Err(Down) = settle(disk, gate, &[1]) {
            return Err(AppendFault::Down);
        }
        self.end += body.len() as u64;
        Ok(())
    }

    /// How many bytes are left for a frame, whose closed gate is behind it.
    pub fn spare(&self) -> u64
        ensures { self.now.end + 1 + result ≡ self.now.area.len }
    {
        self.area.len - self.end - 1
    }
}
