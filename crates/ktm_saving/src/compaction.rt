// The compaction of the machine's journal.
ghost use Rattle.std.specs.Prelude.{◌≡◌, ◌≤◌, IfSome, vec_capacity};
ghost use Rattle.ktm_base.specs.declared.limits.TheConstants.{MOST_UNITS};
ghost use Rattle.ktm_journal.specs.Image.{IsHeaded};
ghost use Rattle.ktm_log.specs.OnDisk.{on};
ghost use Rattle.ktm_memory.specs.Memory.{present_of};
ghost use Rattle.ktm_records.specs.Kept.{IsKept};
ghost use Rattle.ktm_records.specs.Spelling.{AreTexts};
ghost use Rattle.ktm_saving.specs.Saved.{SavingLeaves};
ghost use Rattle.ktm_world.specs.Sizes.{area_len};

use crate::state::write_state;
use ktm_base::{Disk, Down};
use ktm_memory::Memory;
use ktm_room::law_of_snapshots;
use ktm_snapshot::law_of_states;

/// Lets a snapshot of what was recorded stand for all that the journal holds, whose log is empty then, and whose pages are as
/// they were. The snapshot is put together in the buffer, which has room for it; no memory is taken.
pub fn compact<D: Disk>(memory: &mut Memory, disk: &mut D, buffer: &mut Vec<u8>) -> Result<(), Down>
    requires kept { IsKept (present_of memory.old) }
    requires texts { AreTexts (present_of memory.old) }
    requires small { memory.old.journal.units ≤ MOST_UNITS }
    requires room { area_len memory.old.journal.units ≤ vec_capacity buffer.old }
    requires pending { (D.status disk.old).pending ≡ 0 }
    requires headed { IfSome (D.told disk.old) (λ s. IsHeaded memory.old.journal.units memory.old.journal.image memory.old.journal.selector s.seen) }
    ensures saved { SavingLeaves (on memory.old (D.told disk.old) (D.status disk.old)) (on memory.new (D.told disk.new) (D.status disk.new)) result }
    ensures capacity { vec_capacity buffer.old ≤ vec_capacity buffer.new }
{
    law_of_snapshots();
    law_of_states();
    write_state(memory, buffer);
    memory.compact(disk, buffer.as_slice())
}
