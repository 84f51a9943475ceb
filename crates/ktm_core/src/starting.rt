// A machine that starts from what was loaded, and what it records.
ghost use Rattle.std.specs.Prelude.{◌≡◌, ◌+◌, ◌^◌, ◌<◌, ◌≤◌, IfOk, OnErr, false, [], length, vec_capacity, IfSome};
ghost use Rattle.ktm_base.specs.declared.limits.TheConstants.{MOST_UNITS};
ghost use Rattle.ktm_core.specs.Starting.{Begun, IsStarting, ListsStart, StartLeaves};
ghost use Rattle.ktm_event.specs.Kept.{Holds};
ghost use Rattle.ktm_journal.specs.Image.{IsHeaded};
ghost use Rattle.ktm_log.specs.OnDisk.{on};
ghost use Rattle.ktm_memory.specs.Memory.{Shows};
ghost use Rattle.ktm_restart.specs.Loads.{IsJournalOf, MayStart};
ghost use Rattle.ktm_slots.specs.Owed.{owed_slots};
ghost use Rattle.ktm_standing.specs.Standing.{fresh};
ghost use Rattle.txf_laws.specs.GoodState.{IsGoodState};
ghost use Rattle.ktm_world.specs.Sizes.{area_len, frame_size};
ghost use Rattle.ktm_world.specs.Durable.{is_worn};
ghost use Rattle.ktm_world.specs.World.{in_doubt as all_in_doubt, own_group};

use crate::owing::most_debts;
use crate::recording::{append, has_room};
use ktm_back::{Restored, count_in_doubt, law_of_coming_back, law_of_in_doubt, restore, start};
use ktm_base::{Disk, Down, NoMemory};
use ktm_event::Events;
use ktm_journal::Journal;
use ktm_memory::Memory;
use ktm_paged::law_of_records;
use ktm_records::law_of_spelling;
use ktm_restart::{Durable, DurableParts, Loaded};
use ktm_route::law_of_frames;
use ktm_saving::compact;
use ktm_slots::law_of_slots;
use ktm_standing::{law_of_fresh, law_of_kept};
use ktm_trace::{Trace, law_of_contents};
use std::alloc::Global;
use std::mem::replace;
use txf_laws::{law_of_good_states, law_of_own_groups};

/// A state with so many boots or more is worn.
const WORN_BOOTS: u32 = u32::MAX - 1;

/// A state with so many events or more is worn.
const WORN_EVENTS: u64 = 1 << 62;

/// A list of no events in the buffer of a journal, with the room for whatever an empty log of its image has room for.
pub fn events_in(buffer: Vec<u8>, journal: &Journal) -> Events
    requires most { journal.now.units ≤ MOST_UNITS }
    requires reserved { area_len journal.now.units ≤ vec_capacity buffer }
    ensures empty { Holds result [] }
    ensures room { result.room + frame_size [] ≡ area_len journal.now.units }
    ensures capacity { vec_capacity buffer ≤ result.capacity }
{
    Events::with_buffer(buffer, journal.events_room())
}

/// Is the state worn: does no machine start from it.
pub fn is_worn(state: &Durable) -> bool
    ensures { result ≡ is_worn state.now }
{
    state.boots() >= WORN_BOOTS || state.events() >= WORN_EVENTS
}

// What a start from this state records, in the buffer of the journal.
fn list_start(alloc: Global, journal: &Journal, state: &Durable, buffer: &mut Vec<u8>) -> Events
    requires good { IsGoodState state.now }
    requires boots { state.now.boots + 1 < 2 ^ 32 }
    requires units { journal.now.units ≡ state.now.units }
    requires most { journal.now.units ≤ MOST_UNITS }
    requires reserved { area_len journal.now.units ≤ vec_capacity buffer.old }
    ensures lists { ListsStart state.now journal.now.units result }
    ensures capacity { vec_capacity buffer.old ≤ result.capacity }
{
    law_of_spelling();
    law_of_frames();
    let mut events = events_in(replace(buffer, Vec::new(alloc)), journal);
    state.own_group(&mut events);
    events
}

/// How many transactions are in doubt.
pub fn in_doubt(state: &Durable) -> u32
    requires { IsGoodState state.now }
    ensures { result ≡ length (all_in_doubt state.now) }
{
    count_in_doubt(state.transactions()) as u32
}

// What a machine holds that starts from this state, before that is recorded: what was recorded, with what the transactions in
// doubt changed and set.
fn begin(alloc: Global, journal: Journal, state: Durable) -> Result<Memory, NoMemory>
    requires good { IsGoodState state }
    requires most { state.units ≤ MOST_UNITS }
    requires boots { state.boots + 2 < 2 ^ 32 }
    requires events { state.events + length (own_group state) < 2 ^ 63 }
    ensures journal { IfOk result (λ memory. memory.journal ≡ journal) }
    ensures shows { IfOk result (λ memory. Shows memory (fresh state)) }
    ensures slots { IfOk result (λ memory. owed_slots (fresh state) ≤ memory.tm.slots) }
{
    law_of_coming_back();
    law_of_slots();
    law_of_in_doubt();
    law_of_own_groups();
    law_of_good_states();
    let mut state = state;
    let tm = match start(
        alloc,
        state.boots() + 1,
        state.managers(),
        state.transactions(),
    ) {
        Ok(tm) => tm,
        Err(NoMemory) => {
            drop(state);
            return Err(NoMemory);
        }
    };
    state.begin();
    let trace = match Trace::of(alloc, state.transactions()) {
        Ok(trace) => trace,
        Err(NoMemory) => {
            drop(tm);
            drop(state);
            return Err(NoMemory);
        }
    };
    let DurableParts {
        files,
        keys,
        transactions,
        ..
    } = state.into_parts();
    match restore(alloc, files, keys, transactions) {
        Ok(Restored { files, keys }) => {
            Ok(Memory::start(alloc, journal, tm, trace, files, keys))
        }
        Err(NoMemory) => {
            drop(tm);
            drop(trace);
            Err(NoMemory)
        }
    }
}

/// A machine that is to start: what it holds, and the list of what it records.
#[derive(Drop)]
pub struct Starting {
    pub memory: Memory,
    pub events: Events,
}

/// What starts from what was loaded, whose log was read into the buffer, with the list of what it records. Out of memory the
/// buffer is kept.
pub fn prepare(alloc: Global, loaded: Loaded, buffer: &mut Vec<u8>) -> Result<Starting, NoMemory>
    requires may { MayStart loaded.state }
    requires unworn { is_worn loaded.state ≡ false }
    requires journal { IsJournalOf loaded.state loaded.journal }
    requires reserved { area_len loaded.journal.units ≤ vec_capacity buffer.old }
    ensures begun { IfOk result (λ starting. Begun loaded starting.events starting.memory) }
    ensures capacity { IfOk result (λ starting. vec_capacity buffer.old ≤ starting.events.capacity) }
    ensures err { OnErr result (vec_capacity buffer.old ≤ vec_capacity buffer.new) }
{
    law_of_spelling();
    law_of_fresh();
    let Loaded { journal, state } = loaded;
    let events = list_start(alloc, &journal, &state, buffer);
    match begin(alloc, journal, state) {
        Ok(memory) => Ok(Starting { memory, events }),
        Err(NoMemory) => {
            *buffer = events.into_buffer();
            Err(NoMemory)
        }
    }
}

/// Records that a machine starts from this state: as a group of the log, or, where the log has no room for it beside the greatest debts, by a
/// snapshot of what the start makes of the state.
pub fn record_start<D: Disk>(
    disk: &mut D,
    memory: &mut Memory,
    events: &Events,
    snapshot: &mut Vec<u8>,
) -> Result<(), Down>
    requires up { (D.status disk.old).is_down ≡ false }
    requires pending { (D.status disk.old).pending ≡ 0 }
    requires headed { IfSome (D.told disk.old) (λ s. IsHeaded memory.old.journal.units memory.old.journal.image memory.old.journal.selector s.seen) }
    requires starts { IsStarting memory.old events.now }
    requires room { area_len memory.old.journal.units ≤ vec_capacity snapshot.old }
    ensures leaves { StartLeaves events.now (on memory.old (D.told disk.old) (D.status disk.old)) (on memory.new (D.told disk.new) (D.status disk.new)) result }
    ensures kept { vec_capacity snapshot.old ≤ vec_capacity snapshot.new }
{
    law_of_fresh();
    law_of_kept();
    law_of_contents();
    law_of_own_groups();
    law_of_spelling();
    law_of_records();
    if has_room(memory, events, most_debts(memory)) {
        return append(disk, memory, events);
    }
    memory.count(events);
    compact(memory, disk, snapshot)
}
