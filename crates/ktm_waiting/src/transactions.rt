// The transactions that are not over, and what they take together.
ghost use Rattle.std.specs.Prelude.{◌≡◌, ◌-◌, ◌&&◌, ◌||◌, Ok, [], None, Some, not, false, true, filter, length};
ghost use Rattle.std.specs.List.{list_all, list_any};
ghost use Rattle.std.specs.Option.{option_copied};
ghost use Rattle.ktm_world.specs.Changes.{changes_apply, has_changes};
ghost use Rattle.ktm_world.specs.Durable.{Recorded as Transaction, are_recorded_changes, changes_in, changes_of, enlistments_of, has_part, has_undone, is_decided, is_held, is_new_in, is_part_of, is_ready, recorded_at, recorded_or_new, superior_ids, with_recorded, without_recorded};
ghost use Rattle.ktm_world.specs.Transactions.{same_id};
ghost use Rattle.ktm_world.specs.Tree.{Tree};
ghost use Rattle.ktm_waiting.specs.Table.{IsByRisingId, changes_at, decided_in, finished_in, held_for, settings_at, with_one_part};
ghost use Rattle.ktm_waiting.specs.Totals.{AllApply, AreKeptOver, IsAmountAt, IsAmountOf, PassImages, TakeTogether, enlisted_at, nothing};
ghost use Rattle.ktm_waiting.specs.Waiting.{IsWaitingKept, total};
ghost use Rattle.txf_tree.specs.TreeState.{tree_of};

use crate::amounts::{
    Amounts, added_by_superior, amounts_in, amounts_of, but_for, enlistments_alone, enlistments_of,
    minus, plus,
};
use crate::table::{Table, is_ready_now};
use ktm_base::{Id, NoMemory};
use ktm_world::{Change, DonePart, Part, Recorded, Setting, Superior};
use std::alloc::Global;
use std::marker::Model;
use txf_durable::DurableFiles;

/// The transactions that are not over. What they take together is counted as they come and go: where it is asked for, none is
/// looked at.
#[derive(Drop)]
pub struct Transactions {
    table: Table,
    taken: Amounts,
}

impl Model for Transactions {
    ghost use Rattle.ktm_waiting.specs.Totals.{TransactionsState};

    ghost Value = { TransactionsState };

    ghost view = { λ t. record { transactions = t.table.transactions } };

    ghost use Rattle.ktm_waiting.specs.Totals.{TakeTogether};

    ghost invariant = { λ t. TakeTogether t.taken t.table.transactions };
}

// What the transaction with this Id takes, if there is one.
fn amounts_at(files: &DurableFiles, table: &Table, id: Id) -> Amounts
    requires { AreKeptOver (tree_of files.now.tree) table.now.transactions }
    ensures is { IsAmountAt result (recorded_at table.now.transactions id) }
    ensures rise { IsByRisingId table.now.transactions }
{
    match table.get(id) {
        Some(t) => amounts_of(files, t),
        None => enlistments_alone(0),
    }
}

// How many enlistments it has.
fn enlistments_at(table: &Table, id: Id) -> u128
    ensures { result ≡ enlisted_at (recorded_at table.now.transactions id) }
{
    match table.get(id) {
        Some(t) => enlistments_of(t),
        None => 0,
    }
}

// How many a superior adds to it.
fn added_at(table: &Table, id: Id) -> u128
    ensures added { result ≡ 1 - length (superior_ids (recorded_or_new table.now.transactions id).superior) }
    ensures rise { IsByRisingId table.now.transactions }
{
    match table.get(id) {
        Some(t) => added_by_superior(t),
        None => 1,
    }
}

// What a transaction takes, if it is ready, and otherwise nothing.
fn amounts_if_ready(files: &DurableFiles, transaction: &Recorded) -> Amounts
    requires { IsWaitingKept (tree_of files.now.tree) transaction.now }
    ensures ready { is_ready transaction.now.stage ≡ true → IsAmountOf result transaction.now }
    ensures other { is_ready transaction.now.stage ≡ false → result ≡ nothing }
{
    if is_ready_now(transaction) {
        amounts_of(files, transaction)
    } else {
        enlistments_alone(0)
    }
}

// What is left once those that are ready are forgotten.
fn without_ready(files: &DurableFiles, taken: Amounts, transactions: &[Recorded]) -> Amounts
    requires kept { AreKeptOver (tree_of files.now.tree) transactions.now }
    requires taken { TakeTogether taken transactions.now }
    ensures { TakeTogether result (filter (λ t. not (is_ready t.stage)) transactions.now) }
{
    let mut left = taken;
    for t in transactions {
        left = minus(left, amounts_if_ready(files, t));
    }
    left
}

impl Transactions {
    pub fn new(alloc: Global) -> Self
        ensures { result.transactions ≡ [] }
    {
        Transactions {
            table: Table::new(alloc),
            taken: enlistments_alone(0),
        }
    }

    pub fn as_slice(&self) -> &[Recorded]
        ensures { result.now ≡ self.now.transactions }
    {
        self.table.as_slice()
    }

    pub fn into_vec(self) -> Vec<Recorded>
        ensures { result.items ≡ self.transactions }
    {
        self.table.into_vec()
    }

    /// The transaction with this Id.
    pub fn get(&self, id: Id) -> Option<&Recorded>
        ensures { option_copied result ≡ recorded_at self.now.transactions id }
    {
        self.table.get(id)
    }

    /// Is the transaction with this Id ready, or is nothing of it recorded yet.
    pub fn is_ready(&self, id: Id) -> bool
        ensures { result ≡ is_ready (recorded_or_new self.now.transactions id).stage }
    {
        self.table.is_ready(id)
    }

    /// Has the transaction with this Id the part of this participant.
    pub fn has_part_of(&self, id: Id, done: DonePart) -> bool
        ensures { result ≡ list_any (λ p. is_part_of done p.part) (recorded_or_new self.now.transactions id).parts }
    {
        self.table.has_part_of(id, done)
    }

    /// Has a transaction this enlistment.
    pub fn has_enlistment(&self, enlistment: Id) -> bool
        ensures { result ≡ list_any (λ t. list_any (λ other. same_id other enlistment) (enlistments_of t)) self.now.transactions }
    {
        self.table.has_enlistment(enlistment)
    }

    /// Is there a transaction with this Id that may be decided: it is held, or ready with a part.
    pub fn may_decide(&self, id: Id) -> bool
        ensures { result ≡ list_any (λ t. same_id t.id id && (is_held t.stage || (is_ready t.stage && has_part t))) self.now.transactions }
    {
        self.table.may_decide(id)
    }

    /// Is there a transaction with this Id that is not decided.
    pub fn may_undo(&self, id: Id) -> bool
        ensures { result ≡ list_any (λ t. same_id t.id id && not (is_decided t.stage)) self.now.transactions }
    {
        self.table.may_undo(id)
    }

    /// Is there a decided transaction with this Id of which this participant is not done.
    pub fn may_finish(&self, id: Id, done: DonePart) -> bool
        ensures { result ≡ list_any (λ t. same_id t.id id && has_undone done t) self.now.transactions }
    {
        self.table.may_finish(id, done)
    }

    /// What they take together.
    pub fn taken(&self) -> Amounts
        ensures { (tree : Tree) → AllApply tree self.now.transactions → result ≡ total tree self.now.transactions }
    {
        self.taken
    }

    /// Forgets the transactions that are ready and neither held nor decided.
    pub fn forget_ready(&mut self, files: &DurableFiles)
        requires { AreKeptOver (tree_of files.now.tree) self.old.transactions }
        ensures { self.new.transactions ≡ filter (λ t. not (is_ready t.stage)) self.old.transactions }
    {
        let taken = without_ready(files, self.taken, self.table.as_slice());
        self.table.forget_ready();
        self.taken = taken;
    }

    /// Puts a transaction at its place, where there is none with its Id. It answers false where no image has room for what they
    /// would take. Where memory is wanted they stay as they were.
    pub fn add(&mut self, files: &DurableFiles, transaction: Recorded) -> Result<bool, NoMemory>
        requires kept { IsWaitingKept (tree_of files.now.tree) transaction }
        requires new { recorded_at self.old.transactions transaction.id ≡ None }
        ensures added { result ≡ Ok true → self.new.transactions ≡ with_recorded self.old.transactions transaction }
        ensures refused { result ≡ Ok false → PassImages (with_recorded self.old.transactions transaction) }
    {
        let Some(taken) = plus(amounts_of(files, &transaction), self.taken) else {
            drop(transaction);
            return Ok(false);
        };
        self.table.reserve()?;
        self.table.put(transaction);
        self.taken = taken;
        Ok(true)
    }

    /// The transaction has one part more that is ready. It answers false where no image has room for what they would take. Out of
    /// memory all are forgotten.
    pub fn add_part(
        &mut self,
        alloc: Global,
        files: &DurableFiles,
        id: Id,
        part: Part,
    ) -> Result<bool, NoMemory>
        requires waits { is_decided (recorded_or_new self.old.transactions id).stage ≡ false }
        requires form { has_changes (changes_in part) ≡ true → are_recorded_changes (changes_in part) ≡ true }
        requires apply { changes_apply (tree_of files.now.tree) (changes_in part) ≡ true }
        requires new { list_all (is_new_in (tree_of files.now.tree)) (changes_in part) ≡ true }
        requires first { has_changes (changes_in part) ≡ true → changes_of (recorded_or_new self.old.transactions id) ≡ [] }
        ensures added { result ≡ Ok true → self.new.transactions ≡ with_recorded self.old.transactions (with_one_part (recorded_or_new self.old.transactions id) part) }
        ensures refused { result ≡ Ok false → PassImages (with_recorded self.old.transactions (with_one_part (recorded_or_new self.old.transactions id) part)) }
    {
        self.table.law_of_order();
        let Some(taken) = plus(self.taken, amounts_in(files, &part)) else {
            drop(part);
            return Ok(false);
        };
        match self.table.add_part(alloc, id, part) {
            Ok(()) => {
                self.taken = taken;
                Ok(true)
            }
            Err(NoMemory) => {
                self.table.clear();
                self.taken = enlistments_alone(0);
                Err(NoMemory)
            }
        }
    }

    /// The transaction waits for this superior from now on. It answers false where no image has room for what they would take. Out of
    /// memory all are forgotten.
    pub fn hold(&mut self, alloc: Global, id: Id, superior: Superior) -> Result<bool, NoMemory>
        requires { is_decided (recorded_or_new self.old.transactions id).stage ≡ false }
        ensures held { result ≡ Ok true → self.new.transactions ≡ with_recorded self.old.transactions (held_for (recorded_or_new self.old.transactions id) superior) }
        ensures refused { result ≡ Ok false → PassImages (with_recorded self.old.transactions (held_for (recorded_or_new self.old.transactions id) superior)) }
    {
        let Some(taken) = plus(self.taken, enlistments_alone(added_at(&self.table, id))) else {
            drop(superior);
            return Ok(false);
        };
        match self.table.hold(alloc, id, superior) {
            Ok(()) => {
                self.taken = taken;
                Ok(true)
            }
            Err(NoMemory) => {
                self.table.clear();
                self.taken = enlistments_alone(0);
                Err(NoMemory)
            }
        }
    }

    /// The transaction is decided, and stays while a part of it is not done. It hands out what it changes and what it sets.
    pub fn decide(
        &mut self,
        alloc: Global,
        files: &DurableFiles,
        id: Id,
    ) -> (Vec<Change>, Vec<Setting>)
        requires { AreKeptOver (tree_of files.now.tree) self.old.transactions }
        ensures changes { result.0.items ≡ changes_at (recorded_at self.old.transactions id) }
        ensures settings { result.1.items ≡ settings_at (recorded_at self.old.transactions id) }
        ensures rest { self.new.transactions ≡ decided_in self.old.transactions (recorded_at self.old.transactions id) }
    {
        let before = amounts_at(files, &self.table, id);
        let (changes, settings) = self.table.decide(alloc, id);
        let taken = but_for(self.taken, before, enlistments_at(&self.table, id));
        self.taken = taken;
        (changes, settings)
    }

    /// A participant of the transaction, which is decided, is done, and it stays while a part of it is not done.
    pub fn finish(&mut self, files: &DurableFiles, id: Id, done: DonePart)
        requires kept { AreKeptOver (tree_of files.now.tree) self.old.transactions }
        requires decided { (t : Transaction) → recorded_at self.old.transactions id ≡ Some t → is_decided t.stage ≡ true }
        ensures { self.new.transactions ≡ finished_in self.old.transactions done (recorded_at self.old.transactions id) }
    {
        let before = amounts_at(files, &self.table, id);
        self.table.finish(id, done);
        let taken = but_for(self.taken, before, enlistments_at(&self.table, id));
        self.taken = taken;
    }

    /// The transaction is forgotten.
    pub fn forget(&mut self, files: &DurableFiles, id: Id)
        requires { AreKeptOver (tree_of files.now.tree) self.old.transactions }
        ensures { self.new.transactions ≡ without_recorded self.old.transactions id }
    {
        let taken = minus(self.taken, amounts_at(files, &self.table, id));
        self.table.forget(id);
        self.taken = taken;
    }

    /// All transactions are forgotten.
    pub fn clear(&mut self)
        ensures { self.new.transactions ≡ [] }
    {
        self.table.clear();
        self.taken = enlistments_alone(0);
    }
}
