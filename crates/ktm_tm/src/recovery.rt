// What a resource manager is told when it recovers.
ghost use Rattle.std.specs.Prelude.{◌≡◌, ◌+◌, ◌≤◌, ◌∷◌, [], List, None, OnOk, is_some, length, map, true};
ghost use Rattle.ktm_base.specs.declared.id.Id.{Id};
ghost use Rattle.ktm_world.specs.declared.object.Transaction.{Transaction};
ghost use Rattle.ktm_world.specs.Enlistments.{manager_at};
ghost use Rattle.ktm_world.specs.Labels.{holds_of};
ghost use Rattle.ktm_world.specs.Outcome.{served};
ghost use Rattle.ktm_world.specs.TransactionCalls.{is_in_doubt};
ghost use Rattle.ktm_tm.specs.Listed.{AreRecoveredBehind};
ghost use Rattle.ktm_tm.specs.Recovery.{is_to_recover, recover_notes, recovers};
ghost use Rattle.ktm_tm.specs.TmState.{KeepsNow, KeepsRoom};

use crate::table::TransactionTable;
use crate::tm::Tm;
use ktm_base::{Id, NoMemory, Notify};
use ktm_enlist::Enlistments;
use ktm_manager::Managers;
use ktm_notify::Note;
use ktm_phase::Enlistment;
use ktm_world::{Phase, Transaction};

// Is there a transaction, and is it in doubt.
fn is_in_doubt(t: Option<Transaction>) -> bool
    ensures { result ≡ holds_of is_in_doubt t }
{
    match t {
        Some(t) => match t.phase {
            Phase::InDoubt => true,
            _ => false,
        },
        None => false,
    }
}

// Is the enlistment one that the resource manager is to recover.
fn is_to_recover(transactions: &TransactionTable, manager: Id, e: &Enlistment) -> bool
    ensures { result ≡ is_to_recover transactions.now.items manager e.now }
{
    e.manager == manager
        && !e.is_recovered
        && (!e.is_superior() || is_in_doubt(transactions.find(e.transaction)))
}

// How many of the enlistments the resource manager is to recover.
fn count(transactions: &TransactionTable, enlistments: &[Enlistment], manager: Id) -> usize
    ensures count { result ≡ length (recovers transactions.now.items manager enlistments.now) }
    ensures most { result ≤ length enlistments.now }
{
    let mut count = 0;
    for e in enlistments {
        if is_to_recover(transactions, manager, e) {
            count += 1;
        }
    }
    count
}

// Tells the resource manager of the enlistment, if it is to recover it.
fn tell_one(transactions: &TransactionTable, e: &Enlistment, managers: &mut Managers, manager: Id)
    requires there { is_some (manager_at managers.old.managers manager) ≡ true }
    requires spare { length (recovers transactions.now.items manager (e.now ∷ [])) ≤ managers.old.spare }
    ensures managers { managers.new.managers ≡ map (served None (recovers transactions.now.items manager (e.now ∷ []))) managers.old.managers }
    ensures spare { managers.new.spare + length (recovers transactions.now.items manager (e.now ∷ [])) ≡ managers.old.spare }
    ensures room { managers.new.room ≡ managers.old.room }
{
    if is_to_recover(transactions, manager, e) {
        let note = Note {
            kind: Notify::Recover,
            enlistment: Some(e.id),
        };
        managers.send(manager, note);
    }
}

// Tells the resource manager of each of the enlistments that it is to recover.
fn tell_each(
    transactions: &TransactionTable,
    enlistments: &[Enlistment],
    managers: &mut Managers,
    manager: Id,
)
    requires there { is_some (manager_at managers.old.managers manager) ≡ true }
    requires spare { length (recovers transactions.now.items manager enlistments.now) ≤ managers.old.spare }
    ensures managers { managers.new.managers ≡ map (served None (recovers transactions.now.items manager enlistments.now)) managers.old.managers }
    ensures spare { managers.new.spare + length (recovers transactions.now.items manager enlistments.now) ≡ managers.old.spare }
    ensures room { managers.new.room ≡ managers.old.room }
{
    for e in enlistments {
        tell_one(transactions, e, managers, manager);
    }
}

// The enlistments that a restart brought back, which alone may be to recover.
fn brought_back(enlistments: &Enlistments, back: usize) -> &[Enlistment]
    requires { AreRecoveredBehind back enlistments.now.enlistments }
    ensures { (ts : List Transaction) (manager : Id) → recovers ts manager result.now ≡ recovers ts manager enlistments.now.enlistments }
{
    &enlistments.as_slice()[..back]
}

impl Tm {
    /// How many notifications the resource manager is sent when it recovers.
    pub fn recover_count(&self, manager: Id) -> usize
        ensures { result ≡ length (recover_notes self.now.now manager) }
    {
        count(
            &self.transactions,
            brought_back(&self.enlistments, self.back_enlistments),
            manager,
        ) + 1
    }

    /// Takes the memory for as many notifications more as the resource manager is sent when it recovers.
    pub fn reserve_recovery(&mut self, manager: Id) -> Result<(), NoMemory>
        ensures slots { OnOk result (self.old.slots + length (recover_notes self.old.now manager) ≤ self.new.slots) }
        ensures grows { self.old.slots ≤ self.new.slots }
        ensures now { KeepsNow self.old self.new }
        ensures enlistment_room { self.new.enlistment_room ≡ self.old.enlistment_room }
        ensures manager_room { self.new.manager_room ≡ self.old.manager_room }
    {
        let notes = self.recover_count(manager);
        let Some(slots) = self.managers.spare().checked_add(notes) else {
            return Err(NoMemory);
        };
        self.managers.reserve_notes(slots)
    }

    /// Tells the resource manager of each of its enlistments that is to be recovered, and then that these were all. It looks only at
    /// those that a restart brought back, and takes no memory.
    pub fn recover(&mut self, manager: Id)
        requires there { is_some (manager_at self.old.managers manager) ≡ true }
        requires slots { length (recover_notes self.old.now manager) ≤ self.old.slots }
        ensures managers { self.new.managers ≡ map (served None (recover_notes self.old.now manager)) self.old.managers }
        ensures slots { self.new.slots + length (recover_notes self.old.now manager) ≡ self.old.slots }
        ensures now { self.new.now ≡ self.old.now }
        ensures room { KeepsRoom self.old self.new }
    {
        tell_each(
            &self.transactions,
            brought_back(&self.enlistments, self.back_enlistments),
            &mut self.managers,
            manager,
        );
        let last = Note {
            kind: Notify::LastRecover,
            enlistment: None,
        };
        self.managers.send(manager, last);
    }
}
