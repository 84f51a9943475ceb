// The enlistments: how they are made, found and counted.
ghost use Rattle.std.specs.Prelude.{◌≡◌, ◌+◌, ◌<◌, ◌≤◌, ◌++◌, ◌∷◌, [], OnOk, count_by, false, is_some, length, true};
ghost use Rattle.std.specs.List.{list_all};
ghost use Rattle.std.specs.Option.{option_copied};
ghost use Rattle.ktm_world.specs.Durable.{is_before};
ghost use Rattle.ktm_world.specs.Enlistments.{enlistment_at, has_id, is_live_enlistment, manager_at, superior_of, with_enlistments};
ghost use Rattle.ktm_world.specs.TransactionCalls.{no_enlistment_left};
ghost use Rattle.ktm_tm.specs.TmState.{id_after, with_enlisted, KeepsNow, KeepsOthers};

use crate::live::live_one;
use crate::tm::Tm;
use ktm_base::{Bytes, Id, MOST_LIVE, MOST_NUMBER, NoMemory};
use ktm_phase::Enlistment;
use ktm_world::EnlistmentKind;
use std::alloc::Global;

/// How many notifications may wait for an enlistment.
const SLOTS: usize = 5;

impl Tm {
    /// The enlistment with this Id.
    pub fn enlistment(&self, id: Id) -> Option<&Enlistment>
        ensures { option_copied result ≡ enlistment_at self.now.now.enlistments id }
    {
        self.enlistments.find(id)
    }

    /// How many enlistments are live: those that are so in the transactions that have not ended.
    pub fn live_enlistment_count(&self) -> usize
        ensures { result ≡ count_by (is_live_enlistment self.now.now.items) self.now.now.enlistments }
    {
        self.live_enlistments
    }

    /// The enlistment of the superior of the transaction, if it has one.
    pub fn superior(&self, transaction: Id) -> Option<&Enlistment>
        ensures { option_copied result ≡ superior_of self.now.now.enlistments transaction }
    {
        self.enlistments.superior(transaction)
    }

    /// Would one enlistment more pass the limit of 64 live ones, or the greatest number.
    pub fn is_full_of_enlistments(&self) -> bool
        ensures { result ≡ no_enlistment_left self.now.now }
    {
        self.live_enlistment_count() >= MOST_LIVE || self.last_enlistment >= MOST_NUMBER
    }

    /// Takes the memory that one enlistment more needs, with five notifications for it.
    pub fn reserve_enlistment(&mut self) -> Result<(), NoMemory>
        ensures room { OnOk result (1 ≤ self.new.enlistment_room) }
        ensures slots { OnOk result (self.old.slots + 5 ≤ self.new.slots) }
        ensures grows { self.old.slots ≤ self.new.slots }
        ensures now { KeepsNow self.old self.new }
        ensures manager_room { self.new.manager_room ≡ self.old.manager_room }
    {
        self.enlistments.reserve()?;
        let Some(slots) = self.managers.spare().checked_add(SLOTS) else {
            return Err(NoMemory);
        };
        self.managers.reserve_notes(slots)
    }

    /// The Id of the enlistment that is made next.
    pub fn next_enlistment_id(&self) -> Id
        requires { no_enlistment_left self.now.now ≡ false }
        ensures { result ≡ id_after self.now.boot self.now.now.last_enlistment }
    {
        Id {
            boot: self.boot(),
            number: self.last_enlistment + 1,
        }
    }

    /// Makes an enlistment with the next number. It takes no memory.
    pub fn create_enlistment(
        &mut self,
        alloc: Global,
        manager: Id,
        transaction: Id,
        kind: EnlistmentKind,
    ) -> Id
        requires left { no_enlistment_left self.old.now ≡ false }
        requires there { is_some (manager_at self.old.managers manager) ≡ true }
        requires room { 1 ≤ self.old.enlistment_room }
        ensures id { result ≡ id_after self.old.boot self.old.now.last_enlistment }
        ensures now { self.new.now ≡ with_enlisted self.old.boot self.old.now manager transaction kind }
        ensures enlistment_room { self.new.enlistment_room + 1 ≡ self.old.enlistment_room }
        ensures others { KeepsOthers self.old self.new }
    {
        let id = self.next_enlistment_id();
        let e = Enlistment {
            id,
            manager,
            transaction,
            kind,
            owes: None,
            is_read_only: false,
            is_prepared: false,
            is_finished: false,
            is_recovered: true,
            information: Bytes::new(Vec::new(alloc)),
        };
        self.live_enlistments += live_one(&self.transactions, &e);
        self.enlistments.add(e);
        self.last_enlistment = id.number;
        id
    }

    /// An enlistment that a restart brings back, behind the others. It takes no memory.
    pub fn bring_back_enlistment(&mut self, e: Enlistment)
        requires earlier { e.id.boot < self.old.boot }
        requires behind { list_all (λ other. is_before other.id e.id) self.old.now.enlistments ≡ true }
        requires there { is_some (manager_at self.old.managers e.manager) ≡ true }
        requires room { 1 ≤ self.old.enlistment_room }
        ensures now { self.new.now ≡ record self.old.now { enlistments = self.old.now.enlistments ++ e ∷ [] } }
        ensures enlistment_room { self.new.enlistment_room + 1 ≡ self.old.enlistment_room }
        ensures others { KeepsOthers self.old self.new }
    {
        let live = live_one(&self.transactions, &e);
        self.enlistments.add(e);
        self.back_enlistments = self.enlistments.as_slice().len();
        self.live_enlistments += live;
    }

    /// The enlistment with this Id, if there is one, has this recovery information from now on.
    pub fn inform(&mut self, id: Id, information: Bytes)
        ensures now { self.new.now ≡ record self.old.now { enlistments = with_enlistments (has_id id) (λ e. record e { information = information }) self.old.now.enlistments } }
        ensures enlistment_room { self.new.enlistment_room ≡ self.old.enlistment_room }
        ensures others { KeepsOthers self.old self.new }
    {
        self.enlistments.inform(id, information);
    }
}
