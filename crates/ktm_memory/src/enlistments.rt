// Deciding the calls on enlistments that move no transaction.
ghost use Rattle.std.specs.Prelude.{◌≡◌, ◌+◌, ◌≤◌, true, false, None, [], IfOk, IsOk, OnErr, is_some};
ghost use Rattle.ktm_standing.specs.Standing.{IsStandingNow};
ghost use Rattle.ktm_event.specs.Kept.{EventsState, Holds};
ghost use Rattle.ktm_memory.specs.Decided.{Decides};
ghost use Rattle.ktm_memory.specs.Memory.{held, present_of};
ghost use Rattle.ktm_memory.specs.Routed.{outcome_of};
ghost use Rattle.ktm_memory.specs.Takes.{routed_takes_memory};
ghost use Rattle.ktm_memory.specs.declared.routed.Routed.TheVariants.{Enlist, Tell};
ghost use Rattle.ktm_memory.specs.declared.settlement.Settlement.TheVariants.{Nothing};
ghost use Rattle.ktm_slots.specs.Slots.{granted_in};
ghost use Rattle.ktm_world.specs.Enlistments.{enlistment_at, manager_at};
ghost use Rattle.ktm_world.specs.Handles.{object_at};
ghost use Rattle.ktm_world.specs.Transactions.{transaction_at};

use crate::memory::Memory;
use crate::settlement::Settlement;
use ktm_base::{Id, Label, NoMemory, ObjectKind, Pid, Refusal, guid};
use ktm_world::{EnlistmentKind, Reply};
use std::alloc::Global;

impl Memory {
    // An enlistment is to be made, if there is room for it, its notifications and its handle.
    pub(crate) fn decide_enlistment(
        &mut self,
        process: Pid,
        label: Label,
        manager: Id,
        transaction: Id,
        kind: EnlistmentKind,
        settlement: &mut Settlement,
    ) -> Result<Reply, NoMemory>
        requires up { self.old.is_up ≡ true }
        requires free { object_at self.old.handles.handles process label ≡ None }
        requires manager { is_some (manager_at self.old.tm.managers manager) ≡ true }
        requires transaction { is_some (transaction_at self.old.tm.now.items transaction) ≡ true }
        requires nothing { settlement.old ≡ Nothing }
        ensures ok { IfOk result (λ reply. (events : EventsState) → Holds events [] → Decides (held self.old) (outcome_of (present_of self.old) process (Enlist label manager transaction kind)) reply settlement.new events self.new) }
        ensures slots { IfOk result (λ reply. self.old.tm.slots + granted_in (present_of self.old) (outcome_of (present_of self.old) process (Enlist label manager transaction kind)) ≤ self.new.tm.slots) }
        ensures grows { self.old.tm.slots ≤ self.new.tm.slots }
        ensures no_memory { OnErr result (held self.new ≡ held self.old) }
        ensures enough { routed_takes_memory (present_of self.old) (Enlist label manager transaction kind) ≡ false → IsOk result }
        ensures files { self.new.files ≡ self.old.files }
    {
        if self.handles.is_full() || self.tm.is_full_of_enlistments() {
            return Ok(Reply::Refused(Refusal::NotEnoughQuota));
        }
        self.tm.reserve_enlistment()?;
        self.handles.reserve(1)?;
        let id = self.tm.next_enlistment_id();
        *settlement = Settlement::Enlist {
            process,
            label,
            manager,
            transaction,
            kind,
        };
        Ok(Reply::Guid(guid(ObjectKind::Enlistment, self.journal.image(), id)))
    }

    // The recovery information of an enlistment is told.
    pub(crate) fn decide_told(&self, alloc: Global, enlistment: Id) -> Result<Reply, NoMemory>
        requires there { is_some (enlistment_at self.now.tm.now.enlistments enlistment) ≡ true }
        ensures { IfOk result (λ reply. (process : _) (events : EventsState) → Holds events [] → Decides (held self.now) (outcome_of (present_of self.now) process (Tell enlistment)) reply Nothing events self.now) }
    {
        let Some(e) = self.tm.enlistment(enlistment) else {
            unreachable!();
        };
        Ok(Reply::Contents(e.information.copy(alloc)?))
    }
}
