// The transactions that are not over.
ghost use Rattle.std.specs.Prelude.{◌≡◌, ◌<◌, ◌≤◌, ◌&&◌, ◌||◌, [], None, Some, not, true, OnOk, OnErr, IsOk, IfOk, IfSome, filter, length, map, if◌then◌else◌};
ghost use Rattle.std.specs.List.{list_any, position, position_or_len};
ghost use Rattle.std.specs.Option.{option_copied};
ghost use Rattle.ktm_world.specs.declared.recorded.Stage.{Stage as Progress};
ghost use Rattle.txf_laws.specs.GoodState.{has_one_part_each};
ghost use Rattle.ktm_world.specs.Durable.{Recorded as Transaction, changes_of, emptied_part, enlistments_of, has_part, has_undone, is_before, is_decided, is_held, is_part_of, is_ready, parts_done, recorded_at, recorded_or_new, settings_of, superior_ids, with_recorded, without_recorded};
ghost use Rattle.ktm_world.specs.Transactions.{same_id};
ghost use Rattle.ktm_waiting.specs.Table.{IsByRisingId, changes_at, decided_in, finished_in, held_for, settings_at, with_one_part};

use crate::managers::is_before;
use crate::parts::{
    finish, has_part, has_part_of, has_undone_part, has_undone_part_of, is_decided, is_held,
    is_ready, take_changes, take_settings,
};
use ktm_base::{Id, NoMemory};
use ktm_world::{Change, DonePart, Part, Recorded, RecordedPart, Setting, Stage, Superior};
use std::alloc::Global;
use std::marker::Model;

/// The transactions that are not over, by rising Id. There are few of them.
#[derive(Drop)]
pub(crate) struct Table {
    items: Vec<Recorded>,
}

impl Model for Table {
    ghost use Rattle.std.specs.Prelude.{◌-◌, vec_len, vec_capacity};
    ghost use Rattle.ktm_waiting.specs.Table.{TableState};

    ghost Value = { TableState };

    ghost view = { λ t. record {
      transactions = t.items.items;
      spare = vec_capacity t.items - vec_len t.items;
    } };

    ghost use Rattle.ktm_waiting.specs.Table.{IsByRisingId};

    ghost invariant = { λ t. IsByRisingId t.items.items };
}

// The index of the transaction with this Id.
fn index_of(items: &[Recorded], id: Id) -> Option<usize>
    ensures { result ≡ position (λ t. same_id t.id id) items.now }
{
    items.iter().position(|t| t.id == id)
}

// The index of the first that this Id comes before.
fn first_behind(items: &[Recorded], id: Id) -> Option<usize>
    ensures { result ≡ position (λ t. is_before id t.id) items.now }
{
    items.iter().position(|t| is_before(id, t.id))
}

// The place of this Id: before the first that it comes before.
fn place_of(items: &[Recorded], id: Id) -> usize
    ensures place { result ≡ position_or_len (λ t. is_before id t.id) items.now }
    ensures within { result ≤ length items.now }
{
    first_behind(items, id).unwrap_or(items.len())
}

// A transaction of which nothing is recorded yet.
fn fresh(alloc: Global, id: Id) -> Recorded
    ensures { result ≡ record { id = id; stage = Progress.Ready; superior = None; parts = [] } }
{
    Recorded {
        id,
        stage: Stage::Ready,
        superior: None,
        parts: Vec::new(alloc),
    }
}

// Is the superior, if there is one, this enlistment.
fn is_superior(superior: &Option<Superior>, enlistment: Id) -> bool
    ensures { result ≡ list_any (λ other. same_id other enlistment) (superior_ids superior.now) }
{
    match superior {
        Some(superior) => superior.enlistment == enlistment,
        None => false,
    }
}

// Has the transaction this enlistment.
fn has_enlistment(transaction: &Recorded, enlistment: Id) -> bool
    ensures { result ≡ list_any (λ other. same_id other enlistment) (enlistments_of transaction.now) }
{
    is_superior(&transaction.superior, enlistment)
        || has_part_of(&transaction.parts, DonePart::Enlistment(enlistment))
}

// May the transaction be decided.
fn may_decide(transaction: &Recorded) -> bool
    ensures { result ≡ (is_held transaction.now.stage || (is_ready transaction.now.stage && has_part transaction.now)) }
{
    is_held(transaction.stage) || (is_ready(transaction.stage) && has_part(&transaction.parts))
}

pub(crate) fn is_ready_now(transaction: &Recorded) -> bool
    ensures { result ≡ is_ready transaction.now.stage }
{
    is_ready(transaction.stage)
}

fn has_part_of_it(transaction: &Recorded, done: DonePart) -> bool
    ensures { result ≡ list_any (λ p. is_part_of done p.part) transaction.now.parts }
{
    has_part_of(&transaction.parts, done)
}

fn may_undo(transaction: &Recorded) -> bool
    ensures { result ≡ not (is_decided transaction.now.stage) }
{
    !is_decided(transaction.stage)
}

pub fn has_undone(transaction: &Recorded, done: DonePart) -> bool
    ensures { result ≡ has_undone done transaction.now }
{
    is_decided(transaction.stage) && has_undone_part_of(&transaction.parts, done)
}

// A transaction with one part more, which is ready.
fn with_one_part(transaction: Recorded, part: Part) -> Result<Recorded, NoMemory>
    ensures { IfOk result (λ t. t ≡ with_one_part transaction part) }
{
    let Recorded {
        id,
        stage,
        superior,
        mut parts,
    } = transaction;
    parts.push(RecordedPart {
        is_done: false,
        part,
    })?;
    Ok(Recorded {
        id,
        stage,
        superior,
        parts,
    })
}

// A transaction that waits for this superior.
fn held_for(transaction: Recorded, superior: Superior) -> Recorded
    ensures { result ≡ held_for transaction superior }
{
    let Recorded { id, parts, .. } = transaction;
    Recorded {
        id,
        stage: Stage::Held,
        superior: Some(superior),
        parts,
    }
}

// A transaction that was decided, with what it changes and what it sets.
#[derive(Drop)]
struct Decided {
    transaction: Recorded,
    changes: Vec<Change>,
    settings: Vec<Setting>,
}

fn decide(alloc: Global, transaction: Recorded) -> Decided
    requires { has_one_part_each transaction ≡ true }
    ensures transaction { result.transaction ≡ record transaction { stage = Progress.Decided; parts = map emptied_part transaction.parts } }
    ensures changes { result.changes.items ≡ changes_of transaction }
    ensures settings { result.settings.items ≡ settings_of transaction }
{
    let Recorded {
        id,
        superior,
        mut parts,
        ..
    } = transaction;
    let changes = take_changes(alloc, &mut parts);
    let settings = take_settings(alloc, &mut parts);
    Decided {
        transaction: Recorded {
            id,
            stage: Stage::Decided,
            superior,
            parts,
        },
        changes,
        settings,
    }
}

// A transaction of which a participant is done.
fn finish_part(transaction: Recorded, done: DonePart) -> Recorded
    ensures { result ≡ record transaction { parts = parts_done done transaction.parts } }
{
    let Recorded {
        id,
        stage,
        superior,
        mut parts,
    } = transaction;
    finish(&mut parts, done);
    Recorded {
        id,
        stage,
        superior,
        parts,
    }
}

impl Table {
    pub(crate) fn new(alloc: Global) -> Self
        ensures { result.transactions ≡ [] }
    {
        Table {
            items: Vec::new(alloc),
        }
    }

    pub(crate) fn as_slice(&self) -> &[Recorded]
        ensures { result.now ≡ self.now.transactions }
    {
        &self.items
    }

    pub(crate) fn into_vec(self) -> Vec<Recorded>
        ensures { result.items ≡ self.transactions }
    {
        self.items
    }

    /// They are by rising Id.
    pub(crate) fn law_of_order(&self)
        ensures { IsByRisingId self.now.transactions }
    {
        let _ = &self.items;
    }

    /// The transaction with this Id.
    pub(crate) fn get(&self, id: Id) -> Option<&Recorded>
        ensures found { option_copied result ≡ recorded_at self.now.transactions id }
        ensures rise { IsByRisingId self.now.transactions }
    {
        self.items.iter().find(|t| t.id == id)
    }

    /// Makes room for one transaction more.
    pub(crate) fn reserve(&mut self) -> Result<(), NoMemory>
        ensures room { OnOk result (0 < self.new.spare) }
        ensures enough { 0 < self.old.spare → IsOk result }
        ensures same { self.new.transactions ≡ self.old.transactions }
    {
        self.items.reserve(1)?;
        Ok(())
    }

    /// Takes the transaction with this Id out, which leaves room for it.
    pub(crate) fn take(&mut self, id: Id) -> Option<Recorded>
        ensures taken { result ≡ recorded_at self.old.transactions id }
        ensures rise { IsByRisingId self.old.transactions }
        ensures rest { self.new.transactions ≡ without_recorded self.old.transactions id }
        ensures room { IfSome result (λ t. 0 < self.new.spare) }
        ensures spare { self.old.spare ≤ self.new.spare }
    {
        let Some(index) = index_of(&self.items, id) else {
            return None;
        };
        Some(self.items.remove(index))
    }

    /// Puts a transaction at its place, where there is none with its Id. It takes no memory.
    pub(crate) fn put(&mut self, transaction: Recorded)
        requires room { 0 < self.old.spare }
        requires new { recorded_at self.old.transactions transaction.id ≡ None }
        ensures { self.new.transactions ≡ with_recorded self.old.transactions transaction }
    {
        let place = place_of(&self.items, transaction.id);
        self.items.insert(place, transaction).unwrap();
    }

    /// Forgets the transactions that are ready and neither held nor decided.
    pub(crate) fn forget_ready(&mut self)
        ensures { self.new.transactions ≡ filter (λ t. not (is_ready t.stage)) self.old.transactions }
    {
        self.items.retain(|t| !is_ready(t.stage));
    }

    /// Is the transaction with this Id ready, or is nothing of it recorded yet.
    pub(crate) fn is_ready(&self, id: Id) -> bool
        ensures { result ≡ is_ready (recorded_or_new self.now.transactions id).stage }
    {
        match self.get(id) {
            Some(t) => is_ready_now(t),
            None => true,
        }
    }

    /// Has the transaction with this Id the part of this participant.
    pub(crate) fn has_part_of(&self, id: Id, done: DonePart) -> bool
        ensures { result ≡ list_any (λ p. is_part_of done p.part) (recorded_or_new self.now.transactions id).parts }
    {
        match self.get(id) {
            Some(t) => has_part_of_it(t, done),
            None => false,
        }
    }

    /// Has a transaction this enlistment.
    pub(crate) fn has_enlistment(&self, enlistment: Id) -> bool
        ensures { result ≡ list_any (λ t. list_any (λ other. same_id other enlistment) (enlistments_of t)) self.now.transactions }
    {
        self.items.iter().any(|t| has_enlistment(t, enlistment))
    }

    /// Is there a transaction with this Id that may be decided: it is held, or ready with a part.
    pub(crate) fn may_decide(&self, id: Id) -> bool
        ensures { result ≡ list_any (λ t. same_id t.id id && (is_held t.stage || (is_ready t.stage && has_part t))) self.now.transactions }
    {
        match self.get(id) {
            Some(t) => may_decide(t),
            None => false,
        }
    }

    /// Is there a transaction with this Id that is not decided.
    pub(crate) fn may_undo(&self, id: Id) -> bool
        ensures { result ≡ list_any (λ t. same_id t.id id && not (is_decided t.stage)) self.now.transactions }
    {
        match self.get(id) {
            Some(t) => may_undo(t),
            None => false,
        }
    }

    /// Is there a decided transaction with this Id of which this participant is not done.
    pub(crate) fn may_finish(&self, id: Id, done: DonePart) -> bool
        ensures { result ≡ list_any (λ t. same_id t.id id && has_undone done t) self.now.transactions }
    {
        match self.get(id) {
            Some(t) => has_undone(t, done),
            None => false,
        }
    }

    // Takes the transaction with this Id out, or makes a new one that is ready. There is room for it then.
    fn take_or_new(&mut self, alloc: Global, id: Id) -> Result<Recorded, NoMemory>
        ensures taken { IfOk result (λ t. t ≡ recorded_or_new self.old.transactions id) }
        ensures rise { IsByRisingId self.old.transactions }
        ensures room { OnOk result (0 < self.new.spare) }
        ensures rest { self.new.transactions ≡ without_recorded self.old.transactions id }
    {
        match self.take(id) {
            Some(t) => Ok(t),
            None => {
                self.reserve()?;
                Ok(fresh(alloc, id))
            }
        }
    }

    /// The transaction has one part more that is ready. Out of memory it is lost.
    pub(crate) fn add_part(&mut self, alloc: Global, id: Id, part: Part) -> Result<(), NoMemory>
        ensures ok { OnOk result (self.new.transactions ≡ with_recorded self.old.transactions (with_one_part (recorded_or_new self.old.transactions id) part)) }
        ensures err { OnErr result (self.new.transactions ≡ without_recorded self.old.transactions id) }
    {
        let t = self.take_or_new(alloc, id)?;
        let t = with_one_part(t, part)?;
        self.put(t);
        Ok(())
    }

    /// The transaction waits for this superior from now on.
    pub(crate) fn hold(&mut self, alloc: Global, id: Id, superior: Superior) -> Result<(), NoMemory>
        ensures ok { OnOk result (self.new.transactions ≡ with_recorded self.old.transactions (held_for (recorded_or_new self.old.transactions id) superior)) }
        ensures err { OnErr result (self.new.transactions ≡ without_recorded self.old.transactions id) }
    {
        let t = self.take_or_new(alloc, id)?;
        self.put(held_for(t, superior));
        Ok(())
    }

    // Puts a transaction back, for which there is room, while a part of it is not done.
    fn put_while_not_done(&mut self, transaction: Recorded)
        requires room { 0 < self.old.spare }
        requires new { recorded_at self.old.transactions transaction.id ≡ None }
        ensures { self.new.transactions ≡ (if list_any (λ p. not p.is_done) transaction.parts then with_recorded self.old.transactions transaction else self.old.transactions) }
    {
        if has_undone_part(&transaction.parts) {
            self.put(transaction);
        }
    }

    /// The transaction is decided, and stays while a part of it is not done. It hands out what it changes and what it sets.
    pub(crate) fn decide(&mut self, alloc: Global, id: Id) -> (Vec<Change>, Vec<Setting>)
        requires { (t : Transaction) → recorded_at self.old.transactions id ≡ Some t → has_one_part_each t ≡ true }
        ensures changes { result.0.items ≡ changes_at (recorded_at self.old.transactions id) }
        ensures settings { result.1.items ≡ settings_at (recorded_at self.old.transactions id) }
        ensures rest { self.new.transactions ≡ decided_in self.old.transactions (recorded_at self.old.transactions id) }
    {
        let Some(t) = self.take(id) else {
            return (Vec::new(alloc), Vec::new(alloc));
        };
        let Decided {
            transaction,
            changes,
            settings,
        } = decide(alloc, t);
        self.put_while_not_done(transaction);
        (changes, settings)
    }

    /// A participant of the transaction is done, and it stays while a part of it is not done.
    pub(crate) fn finish(&mut self, id: Id, done: DonePart)
        ensures { self.new.transactions ≡ finished_in self.old.transactions done (recorded_at self.old.transactions id) }
    {
        let Some(t) = self.take(id) else {
            return;
        };
        self.put_while_not_done(finish_part(t, done));
    }

    /// The transaction is forgotten.
    pub(crate) fn forget(&mut self, id: Id)
        ensures { self.new.transactions ≡ without_recorded self.old.transactions id }
    {
        let _ = self.take(id);
    }

    /// All transactions are forgotten.
    pub(crate) fn clear(&mut self)
        ensures { self.new.transactions ≡ [] }
    {
        self.items.clear();
    }
}
