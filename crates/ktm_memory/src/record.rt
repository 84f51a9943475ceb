// Recording what a command has to record.
ghost use Rattle.std.specs.Prelude.{◌≡◌, ◌+◌, ◌^◌, ◌≤◌, false, length, IfSome};
ghost use Rattle.ktm_journal.specs.Compact.{CompactLeaves};
ghost use Rattle.ktm_journal.specs.Image.{IsHeaded};
ghost use Rattle.ktm_log.specs.OnDisk.{on};
ghost use Rattle.ktm_memory.specs.Recorded.{RecordingLeaves};
ghost use Rattle.ktm_world.specs.Sizes.{area_len};

use crate::memory::Memory;
use ktm_base::{Disk, Down};
use ktm_event::Events;
use ktm_journal::AppendFault;

impl Memory {
    /// Records the events of a command as one group, where there are any.
    pub fn record<D: Disk>(&mut self, disk: &mut D, events: &Events) -> Result<(), AppendFault>
        requires up { (D.status disk.old).is_down ≡ false }
        requires pending { (D.status disk.old).pending ≡ 0 }
        requires headed { IfSome (D.told disk.old) (λ s. IsHeaded self.old.journal.units self.old.journal.image self.old.journal.selector s.seen) }
        ensures { RecordingLeaves events.now (on self.old (D.told disk.old) (D.status disk.old)) (on self.new (D.told disk.new) (D.status disk.new)) result }
    {
        if events.is_empty() {
            return Ok(());
        }
        self.journal.append(disk, events)
    }

    /// Counts the events in the journal, where a snapshot is to stand for what they make.
    pub fn count(&mut self, events: &Events)
        requires { self.old.journal.events + events.now.count ≤ 2 ^ 63 }
        ensures { self.new ≡ record self.old { journal = record self.old.journal { events = self.old.journal.events + events.now.count } } }
    {
        self.journal
            .count_from(self.journal.events() + events.len() as u64);
    }

    /// Lets this snapshot stand for all that the journal holds, whose log is empty then. Nothing else of memory changes.
    pub fn compact<D: Disk>(&mut self, disk: &mut D, snapshot: &[u8]) -> Result<(), Down>
        requires fits { 8 + length snapshot.now ≤ area_len self.old.journal.units }
        requires counted { self.old.journal.events ≤ 2 ^ 63 }
        requires pending { (D.status disk.old).pending ≡ 0 }
        requires headed { IfSome (D.told disk.old) (λ s. IsHeaded self.old.journal.units self.old.journal.image self.old.journal.selector s.seen) }
        ensures rest { self.new ≡ record self.old { journal = self.new.journal } }
        ensures journal { CompactLeaves snapshot.now (on self.old.journal (D.told disk.old) (D.status disk.old)) (on self.new.journal (D.told disk.new) (D.status disk.new)) result }
    {
        self.journal.compact(disk, snapshot)
    }
}
