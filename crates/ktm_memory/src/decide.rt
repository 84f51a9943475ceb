// Deciding what a call comes to whose labels are known, and the passing of time.
ghost use Rattle.std.specs.Prelude.{◌≡◌, ◌+◌, ◌≤◌, ◌∷◌, true, false, None, Some, [], IfOk, IsOk, OnErr, is_none, sum_by};
ghost use Rattle.ktm_standing.specs.Standing.{IsStandingNow};
ghost use Rattle.ktm_event.specs.Kept.{EventsState, Holds};
ghost use Rattle.ktm_memory.specs.Decided.{Decides, IsDone};
ghost use Rattle.ktm_memory.specs.Settled.{labels_outcome};
ghost use Rattle.ktm_memory.specs.Memory.{MayHandle, MemoryState, held, present_of};
ghost use Rattle.ktm_memory.specs.Rules.{KeepsRules, PutsBy};
ghost use Rattle.ktm_memory.specs.Routed.{outcome_of, AreReady, IsActiveCaller, IsReadyFor};
ghost use Rattle.ktm_slots.specs.Slots.{granted_in};
ghost use Rattle.ktm_memory.specs.Takes.{labels_take_memory, routed_takes_memory};
ghost use Rattle.ktm_memory.specs.declared.routed.Routed.TheVariants.{Create, Handles as OfLabels};
ghost use Rattle.ktm_memory.specs.declared.settlement.Settlement.TheVariants.{Nothing};
ghost use Rattle.ktm_world.specs.Sizes.{event_size};
ghost use Rattle.ktm_world.specs.Decide.{of_keys};
ghost use Rattle.ktm_world.specs.Handles.{object_at};
ghost use Rattle.ktm_world.specs.Outcome.{first_refusal, refuse_or};
ghost use Rattle.ktm_world.specs.TransactionCalls.{handle_test, information_of, tick};
ghost use Rattle.ktm_world.specs.Uses.{key_room};
ghost use Rattle.kv_rm.specs.Calls.{is_refused, key_outcome};
ghost use Rattle.txf_volume.specs.Held.{files_of};

use crate::memory::Memory;
use crate::routed::Routed;
use crate::settlement::{Labels, Settlement};
use crate::undone::record_undone;
use ktm_base::{Id, Label, NoMemory, ObjectKind, Pid, Refusal, guid};
use ktm_event::Events;
use ktm_tm::state_of;
use ktm_world::{Reply, Transaction};
use kv_rm::KvCall;
use std::alloc::Global;
use txf_calls::FileCall;

impl Memory {
    // How a transaction stands.
    fn information(&self, t: &Transaction) -> Reply
        ensures { result ≡ information_of (present_of self.now) (Some t.now) }
    {
        Reply::Information {
            transaction: guid(ObjectKind::Transaction, self.journal.image(), t.id),
            state: state_of(t),
            outcome: t.outcome,
        }
    }

    // A transaction is to begin, if there is room for it and its handle.
    fn decide_create(
        &mut self,
        process: Pid,
        label: Label,
        timeout: u32,
        settlement: &mut Settlement,
    ) -> Result<Reply, NoMemory>
        requires up { self.old.is_up ≡ true }
        requires free { object_at self.old.handles.handles process label ≡ None }
        requires nothing { settlement.old ≡ Nothing }
        ensures ok { IfOk result (λ reply. (events : _) → Holds events [] → Decides (held self.old) (outcome_of (present_of self.old) process (Create label timeout)) reply settlement.new events self.new) }
        ensures slots { self.old.tm.slots ≤ self.new.tm.slots }
        ensures no_memory { OnErr result (held self.new ≡ held self.old) }
        ensures spare { 1 ≤ self.old.tm.room → 1 ≤ self.old.handles.spare → IsOk result }
        ensures enough { routed_takes_memory (present_of self.old) (Create label timeout) ≡ false → IsOk result }
        ensures files { self.new.files ≡ self.old.files }
    {
        if self.handles.is_full() || self.tm.is_full() {
            return Ok(Reply::Refused(Refusal::NotEnoughQuota));
        }
        self.tm.reserve()?;
        self.handles.reserve(1)?;
        let id = self.tm.next_id();
        *settlement = Settlement::Begin {
            process,
            label,
            timeout,
        };
        Ok(Reply::Guid(guid(ObjectKind::Transaction, self.journal.image(), id)))
    }

    // A label is to be bound, if there is room for a handle more.
    fn decide_handle(
        &mut self,
        process: Pid,
        labels: Labels,
        settlement: &mut Settlement,
    ) -> Result<Reply, NoMemory>
        requires done { IsDone (labels_outcome (present_of self.old) process labels) }
        requires may { (m : MemoryState) → held m ≡ held self.old → 1 ≤ m.handles.spare → MayHandle m process labels }
        requires nothing { settlement.old ≡ Nothing }
        ensures ok { IfOk result (λ reply. (events : EventsState) → Holds events []
            → Decides (held self.old) (refuse_or (present_of self.old) (first_refusal (handle_test (present_of self.old) ∷ [])) (labels_outcome (present_of self.old) process labels)) reply settlement.new events self.new) }
        ensures slots { self.old.tm.slots ≤ self.new.tm.slots }
        ensures no_memory { OnErr result (held self.new ≡ held self.old) }
        ensures enough { is_none (first_refusal (handle_test (present_of self.old) ∷ [])) ≡ false → IsOk result }
        ensures spare { 1 ≤ self.old.handles.spare → IsOk result }
        ensures files { self.new.files ≡ self.old.files }
    {
        if self.handles.is_full() {
            return Ok(Reply::Refused(Refusal::NotEnoughQuota));
        }
        self.handles.reserve(1)?;
        *settlement = Settlement::Handles { process, labels };
        Ok(Reply::Done)
    }

    // Labels are to be bound or unbound.
    fn decide_labels(
        &mut self,
        process: Pid,
        labels: Labels,
        settlement: &mut Settlement,
    ) -> Result<Reply, NoMemory>
        requires standing { IsStandingNow (present_of self.old) }
        requires ready { AreReady (present_of self.old) process labels }
        requires nothing { settlement.old ≡ Nothing }
        ensures ok { IfOk result (λ reply. (events : EventsState) → Holds events [] → Decides (held self.old) (outcome_of (present_of self.old) process (OfLabels labels)) reply settlement.new events self.new) }
        ensures slots { self.old.tm.slots ≤ self.new.tm.slots }
        ensures no_memory { OnErr result (held self.new ≡ held self.old) }
        ensures enough { labels_take_memory (present_of self.old) labels ≡ false → IsOk result }
        ensures files { self.new.files ≡ self.old.files }
    {
        match labels {
            Labels::Bind { .. } | Labels::Duplicate { .. } => {
                self.decide_handle(process, labels, settlement)
            }
            Labels::Unbind(_) | Labels::UnbindAll => {
                *settlement = Settlement::Handles { process, labels };
                Ok(Reply::Done)
            }
        }
    }

    // A call on keys is decided.
    fn decide_keys(&mut self, who: Option<Id>, call: KvCall) -> Result<Reply, NoMemory>
        requires standing { IsStandingNow (present_of self.old) }
        requires active { IsActiveCaller (present_of self.old) who }
        ensures ok { IfOk result (λ reply. (events : EventsState) → Holds events [] → Decides (held self.old) (of_keys (present_of self.old) (key_outcome self.old.keys (key_room (present_of self.old)) who call)) reply Nothing events self.new) }
        ensures slots { self.old.tm.slots ≤ self.new.tm.slots }
        ensures no_memory { OnErr result (held self.new ≡ held self.old) }
        ensures enough { is_refused (key_outcome self.old.keys (key_room (present_of self.old)) who call).reply ≡ true → IsOk result }
        ensures files { self.new.files ≡ self.old.files }
    {
        let room = self.key_room();
        self.keys.call(who, call, room)
    }

    /// A call whose labels are known is decided by its layer: what is left to do takes the place of nothing. Of what it sends later
    /// there is room then for as many notifications more as the call grants. Where it is out of memory nothing has changed, and no
    /// room is given up.
    pub fn decide_routed(
        &mut self,
        alloc: Global,
        process: Pid,
        routed: Routed,
        events: &mut Events,
        settlement: &mut Settlement,
    ) -> Result<Reply, NoMemory>
        requires up { self.old.is_up ≡ true }
        requires standing { IsStandingNow (present_of self.old) }
        requires ready { IsReadyFor (present_of self.old) process routed }
        requires empty { Holds events.old [] }
        requires fits { sum_by event_size (outcome_of (present_of self.old) process routed).events ≤ events.old.spare }
        requires nothing { settlement.old ≡ Nothing }
        ensures ok { IfOk result (λ reply. Decides (held self.old) (outcome_of (present_of self.old) process routed) reply settlement.new events.new self.new) }
        ensures slots { IfOk result (λ reply. self.old.tm.slots + granted_in (present_of self.old) (outcome_of (present_of self.old) process routed) ≤ self.new.tm.slots) }
        ensures grows { self.old.tm.slots ≤ self.new.tm.slots }
        ensures room { events.new.room ≡ events.old.room }
        ensures no_memory { OnErr result (held self.new ≡ held self.old) }
        ensures enough { routed_takes_memory (present_of self.old) routed ≡ false → IsOk result }
        ensures rules { IfOk result (λ reply. KeepsRules (λ rule. PutsBy rule routed) (files_of self.old.files) (outcome_of (present_of self.old) process routed).events (files_of self.new.files)) }
    {
        match routed {
            Routed::Create { label, timeout } => {
                self.decide_create(process, label, timeout, settlement)
            }
            Routed::Course {
                transaction,
                caller,
                input,
            } => Ok(self.decide_course(transaction, caller, input, events, settlement)),
            Routed::Information(t) => Ok(self.information(&t)),
            Routed::MakeManager { label, durability } => {
                self.decide_manager(process, label, durability, events, settlement)
            }
            Routed::Recover(manager) => self.decide_recovery(manager, settlement),
            Routed::Take(manager) => Ok(self.decide_note(manager, settlement)),
            Routed::Enlist {
                label,
                manager,
                transaction,
                kind,
            } => self.decide_enlistment(process, label, manager, transaction, kind, settlement),
            Routed::Inform {
                enlistment,
                information,
            } => {
                *settlement = Settlement::Inform {
                    enlistment,
                    information,
                };
                Ok(Reply::Done)
            }
            Routed::Tell(enlistment) => self.decide_told(alloc, enlistment),
            Routed::Handles(labels) => self.decide_labels(process, labels, settlement),
            Routed::Keys { who, call } => self.decide_keys(who, call),
            Routed::Files { who, label, call } => {
                self.decide_files(alloc, process, who, label, call, None, events, settlement)
            }
            Routed::Units {
                who,
                file,
                start,
                contents,
                extent,
            } => {
                let call = FileCall::WriteUnits {
                    file,
                    start,
                    contents,
                };
                self.decide_files(
                    alloc,
                    process,
                    who,
                    None,
                    call,
                    Some(extent),
                    events,
                    settlement,
                )
            }
        }
    }

    /// Time passes, and what that records is one group.
    pub fn decide_tick(&self, ms: u32, events: &mut Events, settlement: &mut Settlement) -> Reply
        requires standing { IsStandingNow (present_of self.now) }
        requires empty { Holds events.old [] }
        requires fits { sum_by event_size (tick (present_of self.now) ms).events ≤ events.old.spare }
        ensures decided { Decides (held self.now) (tick (present_of self.now) ms) result settlement.new events.new self.now }
        ensures room { events.new.room ≡ events.old.room }
        ensures rules { KeepsRules (λ rule. Unit {0}) (files_of self.now.files) (tick (present_of self.now) ms).events (files_of self.now.files) }
    {
        record_undone(&self.tm, ms, events);
        *settlement = Settlement::Pass(ms);
        Reply::Done
    }
}
