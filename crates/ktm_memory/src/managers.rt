// Deciding the calls on resource managers.
ghost use Rattle.std.specs.Prelude.{◌≡◌, ◌+◌, ◌≤◌, true, false, None, [], IfOk, IsOk, OnErr, is_some, length, option_map, sum_by};
ghost use Rattle.ktm_base.specs.declared.id.ObjectKind.{ObjectKind};
ghost use Rattle.ktm_base.specs.Guid.{guid_of};
ghost use Rattle.ktm_world.specs.declared.reply.Reply.TheVariants.{Notification};
ghost use Rattle.ktm_standing.specs.Standing.{IsStandingNow};
ghost use Rattle.ktm_event.specs.Kept.{EventsState, Holds};
ghost use Rattle.ktm_memory.specs.Decided.{Decides};
ghost use Rattle.ktm_memory.specs.Memory.{held, present_of};
ghost use Rattle.ktm_memory.specs.Routed.{outcome_of};
ghost use Rattle.ktm_memory.specs.Takes.{routed_takes_memory};
ghost use Rattle.ktm_memory.specs.declared.routed.Routed.TheVariants.{MakeManager, Recover as Recovery, Take as Taking};
ghost use Rattle.ktm_memory.specs.declared.settlement.Settlement.TheVariants.{Nothing};
ghost use Rattle.ktm_event.specs.Spelling.{IsSpellableEvent};
ghost use Rattle.ktm_memory.specs.Decided.{manager_events};
ghost use Rattle.ktm_world.specs.declared.event.Event.{Event as Recorded};
ghost use Rattle.ktm_world.specs.Sizes.{event_size};
ghost use Rattle.ktm_world.specs.Enlistments.{manager_at};
ghost use Rattle.ktm_world.specs.Handles.{object_at};
ghost use Rattle.ktm_world.specs.TransactionCalls.{is_durable, recover_notes};

use crate::memory::Memory;
use crate::settle::is_durable;
use crate::settlement::Settlement;
use ktm_base::{Id, Label, NoMemory, Notify, ObjectKind, Pid, Refusal, guid};
use ktm_event::Events;
use ktm_world::{Durability, Event, Reply};

// Records that a durable resource manager is made; a volatile one is not recorded.
fn record_manager(events: &mut Events, manager: Id, durability: Durability)
    requires empty { Holds events.old [] }
    requires spelled { is_durable durability ≡ true → IsSpellableEvent (Recorded.MadeRm manager) }
    requires fits { sum_by event_size (manager_events manager durability) ≤ events.old.spare }
    ensures holds { Holds events.new (manager_events manager durability) }
    ensures room { events.new.room ≡ events.old.room }
{
    if is_durable(durability) {
        events.push(&Event::MadeRm { manager });
    }
}

// The reply that tells a notification of this kind, and the enlistment that it is about, if it is about one.
fn notification(image: u16, kind: Notify, enlistment: Option<Id>) -> Reply
    ensures { result ≡ Notification kind (option_map (guid_of ObjectKind.Enlistment image) enlistment) }
{
    match enlistment {
        Some(id) => Reply::Notification {
            kind,
            enlistment: Some(guid(ObjectKind::Enlistment, image, id)),
        },
        None => Reply::Notification {
            kind,
            enlistment: None,
        },
    }
}

impl Memory {
    // A resource manager is to be made, if there is room for it and its handle.
    pub(crate) fn decide_manager(
        &mut self,
        process: Pid,
        label: Label,
        durability: Durability,
        events: &mut Events,
        settlement: &mut Settlement,
    ) -> Result<Reply, NoMemory>
        requires up { self.old.is_up ≡ true }
        requires standing { IsStandingNow (present_of self.old) }
        requires free { object_at self.old.handles.handles process label ≡ None }
        requires empty { Holds events.old [] }
        requires fits { sum_by event_size (outcome_of (present_of self.old) process (MakeManager label durability)).events ≤ events.old.spare }
        requires nothing { settlement.old ≡ Nothing }
        ensures ok { IfOk result (λ reply. Decides (held self.old) (outcome_of (present_of self.old) process (MakeManager label durability)) reply settlement.new events.new self.new) }
        ensures slots { self.old.tm.slots ≤ self.new.tm.slots }
        ensures room { events.new.room ≡ events.old.room }
        ensures no_memory { OnErr result (held self.new ≡ held self.old) }
        ensures enough { routed_takes_memory (present_of self.old) (MakeManager label durability) ≡ false → IsOk result }
        ensures files { self.new.files ≡ self.old.files }
    {
        if self.handles.is_full() || self.tm.is_full_of_managers() {
            return Ok(Reply::Refused(Refusal::NotEnoughQuota));
        }
        let id = self.tm.next_manager_id();
        record_manager(events, id, durability);
        self.tm.reserve_manager()?;
        self.handles.reserve(1)?;
        *settlement = Settlement::MakeManager {
            process,
            label,
            durability,
        };
        Ok(Reply::Guid(guid(ObjectKind::Manager, self.journal.image(), id)))
    }

    // A resource manager recovers: there is to be room for what it is told.
    pub(crate) fn decide_recovery(
        &mut self,
        manager: Id,
        settlement: &mut Settlement,
    ) -> Result<Reply, NoMemory>
        requires standing { IsStandingNow (present_of self.old) }
        requires there { is_some (manager_at self.old.tm.managers manager) ≡ true }
        ensures ok { IfOk result (λ reply. (process : _) (events : EventsState) → Holds events [] → Decides (held self.old) (outcome_of (present_of self.old) process (Recovery manager)) reply settlement.new events self.new) }
        ensures slots { IfOk result (λ reply. self.old.tm.slots + length (recover_notes (present_of self.old) manager) ≤ self.new.tm.slots) }
        ensures grows { self.old.tm.slots ≤ self.new.tm.slots }
        ensures no_memory { OnErr result (held self.new ≡ held self.old) }
        ensures files { self.new.files ≡ self.old.files }
    {
        self.tm.reserve_recovery(manager)?;
        *settlement = Settlement::Recover(manager);
        Ok(Reply::Done)
    }

    // A resource manager takes its first notification, if one waits.
    pub(crate) fn decide_note(&self, manager: Id, settlement: &mut Settlement) -> Reply
        requires there { is_some (manager_at self.now.tm.managers manager) ≡ true }
        requires nothing { settlement.old ≡ Nothing }
        ensures { (process : _) (events : EventsState) → Holds events [] → Decides (held self.now) (outcome_of (present_of self.now) process (Taking manager)) result settlement.new events self.now }
    {
        let Some(note) = self.tm.first_note(manager) else {
            return Reply::Refused(Refusal::WaitTimeout);
        };
        *settlement = Settlement::Take(manager);
        notification(self.journal.image(), note.kind, note.enlistment)
    }
}
