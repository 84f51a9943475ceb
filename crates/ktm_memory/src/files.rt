// Deciding the calls on files, and the room that files and keys have.
ghost use Rattle.std.specs.Prelude.{◌≡◌, ◌-◌, ◌≤◌, true, false, None, Some, [], IfOk, IfSome, IsOk, OnErr, OnOk, is_some, sum_by};
ghost use Rattle.ktm_standing.specs.Files.{MayMake};
ghost use Rattle.ktm_standing.specs.Standing.{IsStandingNow};
ghost use Rattle.ktm_event.specs.Kept.{EventsState, Holds};
ghost use Rattle.ktm_memory.specs.Decided.{CanAnswer, Decides, bind_opened};
ghost use Rattle.ktm_memory.specs.Memory.{held, present_of};
ghost use Rattle.ktm_memory.specs.Routed.{IsActiveCaller, IsFreeLabel, IsReadyCall, outcome_of};
ghost use Rattle.ktm_memory.specs.Opening.{files_outcome};
ghost use Rattle.ktm_memory.specs.declared.routed.Routed.TheVariants.{Files as OfFiles};
ghost use Rattle.ktm_memory.specs.declared.settlement.Settlement.TheVariants.{Nothing};
ghost use Rattle.ktm_memory.specs.Takes.{files_take_memory, is_quiet};
ghost use Rattle.ktm_world.specs.Sizes.{event_size};
ghost use Rattle.ktm_world.specs.Decide.{events_of};
ghost use Rattle.ktm_world.specs.Uses.{file_room, key_room};
ghost use Rattle.ktm_memory.specs.Rules.{CallPutsBy, KeepsRules};
ghost use Rattle.ktm_memory.specs.Units.{CanBeRecordedIf};
ghost use Rattle.ktm_world.specs.FileOutcome.{files_after};
ghost use Rattle.ktm_world.specs.Files.{bytes_seen};
ghost use Rattle.txf_tree.specs.UnitChanges.{CanBeMade, CanBeMadeOver};
ghost use Rattle.txf_volume.specs.Held.{files_of};
ghost use Rattle.txf_volume.specs.Plain.{IsReady};
ghost use Rattle.txf_volume.specs.Transacted.{HasRoom};

use crate::commit::record_plan;
use crate::extent::Extent;
use crate::memory::Memory;
use crate::settlement::{Labels, Settlement};
use ktm_base::{Id, Label, NoMemory, Pid};
use ktm_event::Events;
use ktm_standing::law_of_files;
use ktm_world::{Object, Reply};
use kv_rm::Room as KeyRoom;
use std::alloc::Global;
use std::mem::replace;
use txf_calls::{FileCall, OpenFile, Plan, Room, decide};

// What is left to do where a file was opened: its label is bound to it.
fn binding(process: Pid, label: Option<Label>, opened: Option<OpenFile>) -> Settlement
    ensures { result ≡ bind_opened process label opened }
{
    match (label, opened) {
        (Some(label), Some(file)) => Settlement::Handles {
            process,
            labels: Labels::Bind {
                label,
                object: Object::File(file.number),
            },
        },
        _ => Settlement::Nothing,
    }
}

// Does a call only answer.
fn changes_nothing(plan: &Plan) -> bool
    ensures { result ≡ is_quiet plan.now }
{
    plan.change.is_none() && plan.first.is_none() && plan.opened.is_none()
}

impl Memory {
    /// The room that the keys have.
    pub(crate) fn key_room(&self) -> KeyRoom
        ensures { result ≡ key_room (present_of self.now) }
    {
        let waiting = self.files.changes_waiting();
        KeyRoom {
            keys: self.journal.units(),
            changes: (self.journal.units() as u64).saturating_sub(waiting) as u32,
        }
    }

    /// The room that the files have.
    pub fn file_room(&self) -> Room
        ensures { result ≡ file_room (present_of self.now) }
    {
        Room {
            handles: self.handles.left(),
            changes: self.journal.units().saturating_sub(self.keys.unset_count()),
            units: self.journal.units(),
        }
    }

    // Makes room for the handle of a file that is opened, if one is.
    fn reserve_for(&mut self, opened: Option<OpenFile>) -> Result<(), NoMemory>
        ensures same { held self.new ≡ held self.old }
        ensures files { self.new.files ≡ self.old.files }
        ensures slots { self.new.tm.slots ≡ self.old.tm.slots }
        ensures room { OnOk result (is_some opened ≡ true → 1 ≤ self.new.handles.spare) }
        ensures enough { (is_some opened ≡ true → 1 ≤ self.old.handles.spare) → IsOk result }
    {
        if opened.is_none() {
            return Ok(());
        }
        self.handles.reserve(1)
    }

    // A plain call has come to this plan: its change is recorded, and then it is to be made.
    fn decide_plain(
        &mut self,
        process: Pid,
        label: Option<Label>,
        plan: Plan,
        extent: Option<Extent>,
        events: &mut Events,
        settlement: &mut Settlement,
    ) -> Result<Reply, NoMemory>
        requires free { IsFreeLabel (present_of self.old) process label }
        requires may { MayMake (present_of self.old) None plan }
        requires units { IfSome plan.change (CanBeMade (files_of self.old.files).tree) }
        requires can { CanBeRecordedIf (files_of self.old.files).tree plan.change extent }
        requires answers { CanAnswer None plan }
        requires empty { Holds events.old [] }
        requires fits { sum_by event_size (events_of None plan.change) ≤ events.old.spare }
        ensures ok { IfOk result (λ reply. Decides (held self.old) (files_outcome (present_of self.old) process None label plan) reply settlement.new events.new self.new) }
        ensures slots { self.old.tm.slots ≤ self.new.tm.slots }
        ensures room { events.new.room ≡ events.old.room }
        ensures no_memory { OnErr result (held self.new ≡ held self.old) }
        ensures enough { IsReady self.old.files plan None → (is_some plan.opened ≡ true → 1 ≤ self.old.handles.spare) → IsOk result }
        ensures files { files_of self.new.files ≡ files_of self.old.files }
    {
        let mut plan = record_plan(events, plan, extent);
        self.reserve_for(plan.opened)?;
        let ready = self.files.prepare(&plan)?;
        let reply = replace(&mut plan.reply, Reply::Done);
        *settlement = Settlement::Change {
            process,
            label,
            plan,
            ready,
        };
        Ok(reply)
    }

    // A call in a transaction has come to this plan, which is made at once, since nothing of it is recorded.
    fn decide_own(
        &mut self,
        process: Pid,
        id: Id,
        label: Option<Label>,
        plan: Plan,
        settlement: &mut Settlement,
    ) -> Result<Reply, NoMemory>
        requires standing { IsStandingNow (present_of self.old) }
        requires active { IsActiveCaller (present_of self.old) (Some id) }
        requires free { IsFreeLabel (present_of self.old) process label }
        requires may { MayMake (present_of self.old) (Some id) plan }
        requires units { IfSome plan.change (CanBeMadeOver (bytes_seen (files_of self.old.files) (Some id))) }
        ensures ok { IfOk result (λ reply. (events : EventsState) → Holds events [] → Decides (held self.old) (files_outcome (present_of self.old) process (Some id) label plan) reply settlement.new events self.new) }
        ensures slots { self.old.tm.slots ≤ self.new.tm.slots }
        ensures no_memory { OnErr result (held self.new ≡ held self.old) }
        ensures enough { HasRoom self.old.files → plan.change ≡ None → (is_some plan.opened ≡ true → 1 ≤ self.old.handles.spare) → IsOk result }
        ensures files { IfOk result (λ reply. files_of self.new.files ≡ files_after (files_of self.old.files) (Some id) plan) }
    {
        let mut plan = plan;
        let opened = plan.opened;
        self.reserve_for(opened)?;
        let reply = replace(&mut plan.reply, Reply::Done);
        self.files.keep(id, plan)?;
        *settlement = binding(process, label, opened);
        Ok(reply)
    }

    /// A call on files is decided. It is recorded by the extent, if there is one, of the units that it puts.
    pub(crate) fn decide_files(
        &mut self,
        alloc: Global,
        process: Pid,
        who: Option<Id>,
        label: Option<Label>,
        call: FileCall,
        extent: Option<Extent>,
        events: &mut Events,
        settlement: &mut Settlement,
    ) -> Result<Reply, NoMemory>
        requires standing { IsStandingNow (present_of self.old) }
        requires ready { IsReadyCall (present_of self.old) process who label call extent }
        requires empty { Holds events.old [] }
        requires fits { sum_by event_size (outcome_of (present_of self.old) process (OfFiles who label call)).events ≤ events.old.spare }
        requires nothing { settlement.old ≡ Nothing }
        ensures ok { IfOk result (λ reply. Decides (held self.old) (outcome_of (present_of self.old) process (OfFiles who label call)) reply settlement.new events.new self.new) }
        ensures slots { self.old.tm.slots ≤ self.new.tm.slots }
        ensures room { events.new.room ≡ events.old.room }
        ensures no_memory { OnErr result (held self.new ≡ held self.old) }
        ensures enough { files_take_memory (present_of self.old) who call ≡ false → IsOk result }
        ensures rules { IfOk result (λ reply. KeepsRules (λ rule. CallPutsBy rule call) (files_of self.old.files) (outcome_of (present_of self.old) process (OfFiles who label call)).events (files_of self.new.files)) }
    {
        law_of_files();
        let room = self.file_room();
        let plan = decide(alloc, &self.files, who, call, &room)?;
        if changes_nothing(&plan) {
            return Ok(plan.reply);
        }
        match who {
            Some(id) => self.decide_own(process, id, label, plan, settlement),
            None => self.decide_plain(process, label, plan, extent, events, settlement),
        }
    }
}
