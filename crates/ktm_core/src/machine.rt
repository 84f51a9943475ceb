// The machine over the places of bytes and its disk: the one way through.
ghost use Rattle.std.specs.Prelude.{◌≡◌, ◌≤◌, ℕ, [], List, true, false, length, vec_capacity, IfSome, IsOk, OnErr, OnOk};
ghost use Rattle.ktm_core.specs.Answers.{CoreLeaves, IsAsItWas, KeepsRules};
ghost use Rattle.ktm_base.specs.declared.limits.TheConstants.{MOST_UNITS};
ghost use Rattle.ktm_base.specs.declared.refusal.Refusal.TheVariants.{MachineDown};
ghost use Rattle.ktm_core.specs.Recording.{AskedLeaves, MayRecord, PutLeaves, is_refusal, kept_on};
ghost use Rattle.ktm_core.specs.Core.{IsReady, IsSoundFor, core_of};
ghost use Rattle.ktm_journal.specs.Image.{IsHeaded, page_count};
ghost use Rattle.ktm_laws.specs.Running.{HasEventsLeft};
ghost use Rattle.ktm_log.specs.OnDisk.{on};
ghost use Rattle.ktm_memory.specs.Memory.{IsRoomy, present_of};
ghost use Rattle.ktm_memory.specs.Rules.{PutsAlone};
ghost use Rattle.ktm_memory.specs.Settled.{left_to_do};
ghost use Rattle.ktm_memory.specs.Stored.{FilesLieBelow};
ghost use Rattle.ktm_memory.specs.Held.{files_of};
ghost use Rattle.ktm_world.specs.Groups.{Group};
ghost use Rattle.ktm_route.specs.Route.{AskedPutsBy, CanBeAsked, decided};
ghost use Rattle.ktm_route.specs.Takes.{asked_takes_memory};
ghost use Rattle.ktm_store.specs.Pool.{Shows, on_row};
ghost use Rattle.ktm_world.specs.declared.reply.Reply.TheVariants.{Refused};
ghost use Rattle.ktm_world.specs.Sizes.{area_len};

use crate::owing::{is_refusal, may_rise, owes_more, room_beside, writes};
use crate::pages::{write_waiting, write_wanted};
use crate::recording::{make_room, record};
use ktm_base::{Disk, Down, NoMemory, Refusal};
use ktm_debts::law_of_debts;
use ktm_event::Events;
use ktm_laws::law_of_lawful_worlds;
use ktm_memory::{Memory, Settlement};
use ktm_paged::law_of_records;
use ktm_route::{Asked, decide, law_of_frames};
use ktm_slots::law_of_slots;
use ktm_standing::law_of_standing;
use ktm_store::{Store, law_of_rows};
use ktm_trace::{law_of_contents, law_of_kept};
use ktm_world::Reply;
use std::alloc::Global;

/// What a machine holds in memory, over the places of bytes, with the pages on which they are, and the memory for what it records.
#[derive(Drop)]
pub struct Core {
    pub memory: Memory,
    pub store: Store,
    /// In the buffer that the log was read into.
    pub events: Events,
    /// The buffer for a snapshot of all that was recorded.
    pub snapshot: Vec<u8>,
}

// Records the events of a command, of which there are some, with so many bytes of the log beside them: first the pages that they put are
// written, where the disk does not have them yet.
fn put<D: Disk>(
    disk: &mut D,
    memory: &mut Memory,
    store: &mut Store,
    events: &Events,
    settlement: &Settlement,
    beside: u64,
    snapshot: &mut Vec<u8>,
) -> Result<(), Down>
    requires up { (D.status disk.old).is_down ≡ false }
    requires pending { (D.status disk.old).pending ≡ 0 }
    requires headed { IfSome (D.told disk.old) (λ s. IsHeaded memory.old.journal.units memory.old.journal.image memory.old.journal.selector s.seen) }
    requires some { 1 ≤ events.now.count }
    requires may { (raw : Group) × MayRecord memory.old events.now raw (left_to_do (present_of memory.old) settlement.now).events }
    requires most { memory.old.journal.units ≤ MOST_UNITS }
    requires room { area_len memory.old.journal.units ≤ vec_capacity snapshot.old }
    requires pages { length store.old.marks.held ≡ page_count memory.old.journal.units }
    requires none { store.old.wanted ≡ [] }
    requires files { FilesLieBelow (length store.old.marks.held) (files_of memory.old.files) }
    requires puts { PutsAlone (present_of memory.old) settlement.now }
    ensures leaves { (row : List ℕ) → Shows store.old row
        → PutLeaves beside events.now (left_to_do (present_of memory.old) settlement.now).events (kept_on memory.old (on_row store.old row) (D.told disk.old) (D.status disk.old)) (kept_on memory.new (on_row store.new row) (D.told disk.new) (D.status disk.new)) result }
    ensures seen { store.new.seen ≡ store.old.seen }
    ensures kept { vec_capacity snapshot.old ≤ vec_capacity snapshot.new }
{
    law_of_rows(store);
    memory.want_pages(settlement, store);
    if let Err(Down) = write_wanted(disk, memory.journal(), store) {
        return Err(Down);
    }
    record(disk, memory, events, beside, snapshot)
}

// The machine is down, and answers so.
fn fall(memory: &mut Memory) -> Reply
    ensures says { result ≡ Refused MachineDown }
    ensures falls { memory.new ≡ record memory.old { is_up = false } }
{
    memory.fall();
    Reply::Refused(Refusal::MachineDown)
}

impl Core {
    // Answers what is asked, and writes no pages but those that are put by what is recorded.
    fn answer_asked<D: Disk>(
        &mut self,
        alloc: Global,
        disk: &mut D,
        asked: Asked,
    ) -> Result<Reply, NoMemory>
        requires up { (present_of self.old.memory).machine.is_up ≡ true }
        requires ready { (row : List ℕ) → IsReady (core_of self.old.memory (on_row self.old.store row)) (D.told disk.old) (D.status disk.old) }
        requires roomy { IsRoomy self.old.memory.journal self.old.events }
        requires room { area_len self.old.memory.journal.units ≤ vec_capacity self.old.snapshot }
        requires pages { length self.old.store.marks.held ≡ page_count self.old.memory.journal.units }
        requires counts { HasEventsLeft (present_of self.old.memory) }
        requires asked { CanBeAsked (present_of self.old.memory) asked }
        requires sound { IsSoundFor (page_count self.old.memory.journal.units) (present_of self.old.memory) asked }
        ensures leaves { (row : List ℕ) → Shows self.old.store row → AskedLeaves (present_of self.old.memory) asked (on (core_of self.old.memory (on_row self.old.store row)) (D.told disk.old) (D.status disk.old)) (on (core_of self.new.memory (on_row self.new.store row)) (D.told disk.new) (D.status disk.new)) result }
        ensures shows { self.new.store.seen ≡ self.old.store.seen }
        ensures none { self.new.events.count ≡ 0 → OnOk result ((decided (present_of self.old.memory) asked).events ≡ []) }
        ensures rules { KeepsRules (λ rule. AskedPutsBy (present_of self.old.memory) rule asked) (present_of self.old.memory) (present_of self.new.memory) }
        ensures roomy { IsRoomy self.new.memory.journal self.new.events }
        ensures room { area_len self.new.memory.journal.units ≤ vec_capacity self.new.snapshot }
        ensures no_memory { OnErr result ((row : List ℕ) → IsAsItWas (core_of self.old.memory (on_row self.old.store row)) (core_of self.new.memory (on_row self.new.store row))) }
        ensures enough { asked_takes_memory (present_of self.old.memory) asked ≡ false → IsOk result }
    {
        law_of_rows(&self.store);
        law_of_standing();
        law_of_slots();
        law_of_contents();
        law_of_kept();
        law_of_frames();
        law_of_lawful_worlds();
        law_of_records();
        law_of_debts();
        self.events.clear();
        let owing = owes_more(&asked);
        let beside = room_beside(&self.memory, &asked);
        let mut settlement = Settlement::Nothing;
        let reply = decide(
            &mut self.memory,
            alloc,
            asked,
            &mut self.events,
            &mut settlement,
        )?;
        if self.events.is_empty() {
            let rises = may_rise(owing, &reply);
            self.memory.settle(alloc, settlement);
            if let Err(Down) = make_room(disk, &mut self.memory, rises, &mut self.snapshot) {
                drop(reply);
                return Ok(fall(&mut self.memory));
            }
            return Ok(reply);
        }
        if let Err(Down) = put(
            disk,
            &mut self.memory,
            &mut self.store,
            &self.events,
            &settlement,
            beside,
            &mut self.snapshot,
        ) {
            drop(reply);
            drop(settlement);
            return Ok(fall(&mut self.memory));
        }
        self.memory.settle(alloc, settlement);
        Ok(reply)
    }

    // Are the pages that wait in memory to be written behind an answer: units were put and nothing was recorded, and many pages wait.
    fn must_write(&self, writes: bool, reply: &Reply) -> bool
        ensures { result ≡ true → (writes ≡ true) × (is_refusal reply.now ≡ false) × (self.now.events.count ≡ 0) }
    {
        writes && !is_refusal(reply) && self.events.is_empty() && self.store.is_full()
    }

    /// Answers what is asked while the machine is up: it is decided, the pages that its events put are written where the disk does not
    /// have them yet, then the events are recorded, and then memory settles. The log keeps room for all that transactions under way may
    /// still record: in that room stands what completes one, which never makes a snapshot. Whatever else is recorded leaves room for the
    /// greatest debts, and what records nothing and may owe more makes that room once it is done, by a snapshot where the log has too
    /// little. Where units were put and nothing was recorded, and many pages wait in memory for the disk, these are written. After
    /// MACHINE_DOWN the machine is down.
    pub fn answer<D: Disk>(
        &mut self,
        alloc: Global,
        disk: &mut D,
        asked: Asked,
    ) -> Result<Reply, NoMemory>
        requires up { (present_of self.old.memory).machine.is_up ≡ true }
        requires ready { (row : List ℕ) → IsReady (core_of self.old.memory (on_row self.old.store row)) (D.told disk.old) (D.status disk.old) }
        requires roomy { IsRoomy self.old.memory.journal self.old.events }
        requires room { area_len self.old.memory.journal.units ≤ vec_capacity self.old.snapshot }
        requires pages { length self.old.store.marks.held ≡ page_count self.old.memory.journal.units }
        requires counts { HasEventsLeft (present_of self.old.memory) }
        requires asked { CanBeAsked (present_of self.old.memory) asked }
        requires sound { IsSoundFor (page_count self.old.memory.journal.units) (present_of self.old.memory) asked }
        ensures leaves { (row : List ℕ) → Shows self.old.store row → CoreLeaves (present_of self.old.memory) asked (on (core_of self.old.memory (on_row self.old.store row)) (D.told disk.old) (D.status disk.old)) (on (core_of self.new.memory (on_row self.new.store row)) (D.told disk.new) (D.status disk.new)) result }
        ensures shows { self.new.store.seen ≡ self.old.store.seen }
        ensures rules { KeepsRules (λ rule. AskedPutsBy (present_of self.old.memory) rule asked) (present_of self.old.memory) (present_of self.new.memory) }
        ensures roomy { IsRoomy self.new.memory.journal self.new.events }
        ensures room { area_len self.new.memory.journal.units ≤ vec_capacity self.new.snapshot }
        ensures no_memory { OnErr result ((row : List ℕ) → IsAsItWas (core_of self.old.memory (on_row self.old.store row)) (core_of self.new.memory (on_row self.new.store row))) }
        ensures enough { asked_takes_memory (present_of self.old.memory) asked ≡ false → IsOk result }
    {
        let writes = writes(&asked);
        law_of_rows(&self.store);
        let reply = self.answer_asked(alloc, disk, asked)?;
        if !self.must_write(writes, &reply) {
            return Ok(reply);
        }
        if let Err(Down) = write_waiting(disk, self.memory.journal(), &mut self.store) {
            drop(reply);
            return Ok(fall(&mut self.memory));
        }
        Ok(reply)
    }
}
