// Recording a group, whether the log has room for it or not, and room that is made.
ghost use Rattle.std.specs.Prelude.{◌≡◌, ◌≤◌, ◌&&◌, false, not, [], IfSome, vec_capacity};
ghost use Rattle.ktm_base.specs.declared.limits.TheConstants.{MOST_UNITS};
ghost use Rattle.ktm_event.specs.Kept.{Holds};
ghost use Rattle.ktm_journal.specs.Append.{has_no_room};
ghost use Rattle.ktm_journal.specs.Image.{IsHeaded};
ghost use Rattle.ktm_core.specs.Done.{lacks_room};
ghost use Rattle.ktm_core.specs.Recording.{AppendLeaves, GroupLeaves, MayRecord, RoomLeaves, lacks_room_beside};
ghost use Rattle.ktm_log.specs.OnDisk.{on};
ghost use Rattle.ktm_memory.specs.Memory.{present_of};
ghost use Rattle.ktm_standing.specs.Standing.{IsStandingNow};
ghost use Rattle.ktm_world.specs.Groups.{Group};
ghost use Rattle.ktm_world.specs.Sizes.{area_len};

use crate::owing::most_debts;
use ktm_base::{Disk, Down};
use ktm_event::Events;
use ktm_journal::AppendFault;
use ktm_memory::Memory;
use ktm_saving::compact;
use ktm_standing::law_of_kept;

// Appends the events as one group, where there are any, to a log that has room for them.
pub(crate) fn append<D: Disk>(
    disk: &mut D,
    memory: &mut Memory,
    events: &Events,
) -> Result<(), Down>
    requires up { (D.status disk.old).is_down ≡ false }
    requires pending { (D.status disk.old).pending ≡ 0 }
    requires headed { IfSome (D.told disk.old) (λ s. IsHeaded memory.old.journal.units memory.old.journal.image memory.old.journal.selector s.seen) }
    requires room { (group : Group) × Holds events.now group × (has_no_room memory.old.journal group ≡ false) }
    ensures { AppendLeaves events.now (on memory.old (D.told disk.old) (D.status disk.old)) (on memory.new (D.told disk.new) (D.status disk.new)) result }
{
    match memory.record(disk, events) {
        Ok(()) => Ok(()),
        Err(AppendFault::Down) => Err(Down),
        Err(AppendFault::Full) => unreachable!(),
    }
}

// Has the log room for the events, of which there are some, with so many bytes beside them and a gate behind both.
pub(crate) fn has_room(memory: &Memory, events: &Events, beside: u64) -> bool
    requires some { 1 ≤ events.now.count }
    ensures { (group : Group) → Holds events.now group → result ≡ not (lacks_room_beside beside memory.now.journal group) }
{
    (events.body().len() as u64) < memory.journal().left().saturating_sub(beside)
}

// Records the events, of which there are some, as one group. Where the log has no room for them with so many bytes beside them, a snapshot
// of all that was recorded before goes to the other half first.
pub(crate) fn record<D: Disk>(
    disk: &mut D,
    memory: &mut Memory,
    events: &Events,
    beside: u64,
    snapshot: &mut Vec<u8>,
) -> Result<(), Down>
    requires up { (D.status disk.old).is_down ≡ false }
    requires pending { (D.status disk.old).pending ≡ 0 }
    requires headed { IfSome (D.told disk.old) (λ s. IsHeaded memory.old.journal.units memory.old.journal.image memory.old.journal.selector s.seen) }
    requires some { 1 ≤ events.now.count }
    requires may { (raw : Group) × (group : Group) × MayRecord memory.old events.now raw group }
    requires most { memory.old.journal.units ≤ MOST_UNITS }
    requires room { area_len memory.old.journal.units ≤ vec_capacity snapshot.old }
    ensures leaves { GroupLeaves beside events.now (on memory.old (D.told disk.old) (D.status disk.old)) (on memory.new (D.told disk.new) (D.status disk.new)) result }
    ensures kept { vec_capacity snapshot.old ≤ vec_capacity snapshot.new }
{
    law_of_kept();
    if has_room(memory, events, beside) {
        return append(disk, memory, events);
    }
    if let Err(Down) = compact(memory, disk, snapshot) {
        return Err(Down);
    }
    append(disk, memory, events)
}

// Has the log no room for the greatest debts, with a gate behind them.
fn lacks_room(memory: &Memory) -> bool
    ensures { result ≡ lacks_room memory.now.journal [] }
{
    memory.journal().left() <= most_debts(memory)
}

// Where the debts may have risen, and the log has no room for the greatest ones, a snapshot of all that was recorded goes to the other half.
pub(crate) fn make_room<D: Disk>(
    disk: &mut D,
    memory: &mut Memory,
    rises: bool,
    snapshot: &mut Vec<u8>,
) -> Result<(), Down>
    requires pending { (D.status disk.old).pending ≡ 0 }
    requires headed { IfSome (D.told disk.old) (λ s. IsHeaded memory.old.journal.units memory.old.journal.image memory.old.journal.selector s.seen) }
    requires standing { IsStandingNow (present_of memory.old) }
    requires most { memory.old.journal.units ≤ MOST_UNITS }
    requires room { area_len memory.old.journal.units ≤ vec_capacity snapshot.old }
    ensures leaves { RoomLeaves (rises && lacks_room memory.old.journal []) (on memory.old (D.told disk.old) (D.status disk.old)) (on memory.new (D.told disk.new) (D.status disk.new)) result }
    ensures kept { vec_capacity snapshot.old ≤ vec_capacity snapshot.new }
{
    law_of_kept();
    if rises && lacks_room(memory) {
        return compact(memory, disk, snapshot);
    }
    Ok(())
}
