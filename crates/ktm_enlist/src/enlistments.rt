// The enlistments of a boot.
ghost use Rattle.std.specs.Prelude.{◌≡◌, ◌+◌, ◌≤◌, ◌<◌, ◌++◌, ◌∷◌, [], IfSome, IsOk, MatchOption, OnOk, None, count_by, drop, filter, length, map, slice_index_or, true};
ghost use Rattle.std.specs.List.{list_all, list_any};
ghost use Rattle.std.specs.Option.{option_copied};
ghost use Rattle.ktm_base.specs.declared.id.Id.{Id as Named};
ghost use Rattle.ktm_world.specs.Durable.{is_before};
ghost use Rattle.ktm_world.specs.Enlistments.{Enlistment as Member, enlistment_at, has_id, is_given, is_unfinished, superior_of, tell, with_enlistments};
ghost use Rattle.ktm_world.specs.Outcome.{served};
ghost use Rattle.ktm_world.specs.Steps.{answered, is_one_of};
ghost use Rattle.ktm_manager.specs.Rising.{are_rising, id_order, IsAt, IsNowhere};
ghost use Rattle.ktm_enlist.specs.Counts.{is_live_until_end, AreCounts};
ghost use Rattle.ktm_enlist.specs.Enlistments.{AreEnlisted};
ghost use Rattle.ktm_enlist.specs.Groups.{GroupFor};
ghost use Rattle.ktm_enlist.specs.Places.{changed, is_own, is_superior_of, linked, place_from, HasNone, IsOnlyAt, PassesAt};
ghost use Rattle.ktm_enlist.specs.Telling.{asked, asked_if, has_manager, is_of_transaction, told, visited, HasTold, MayTell};

use crate::counts::Counts;
use crate::group::Group;
use crate::groups::{group_in, join, regroup};
use crate::standing::standing_of;
use crate::telling::{Told, tell_one};
use ktm_base::{Bytes, Id, NoMemory, Notify};
use ktm_counted::Steps;
use ktm_manager::{Managers, order_of};
use ktm_phase::Enlistment;
use ktm_world::{Answered, Owed, Who};
use std::alloc::Global;
use std::cmp::Ordering;
use std::marker::Model;
use std::sync::ledger::Ledger;

/// How many enlistments there are at most, so that what counts of them fits 32 bits.
const MOST: usize = u32::MAX as usize;

/// The enlistments by rising Id, those that a restart brought back first.
#[derive(Drop)]
pub struct Enlistments {
    items: Vec<Enlistment>,
    /// Of each the place of the next one of its transaction.
    next: Vec<Option<u32>>,
    /// What is kept of each transaction that has some.
    groups: Vec<Group>,
    /// How many more there is room for.
    room: usize,
}

impl Model for Enlistments {
    ghost use Rattle.std.specs.Prelude.{◌≡◌, ◌-◌, ◌^◌, true, vec_capacity, vec_len};
    ghost use Rattle.ktm_enlist.specs.Enlistments.{EnlistmentsState};
    ghost use Rattle.ktm_enlist.specs.Groups.{AreGrouped, HasRoom};
    ghost use Rattle.ktm_manager.specs.Rising.{are_rising};

    ghost Value = { EnlistmentsState };

    ghost view = { λ es. record {
      enlistments = es.items.items;
      room = es.room;
    } };

    ghost invariant = { λ es. (are_rising (λ e. e.id) es.items.items ≡ true) × HasRoom es.room (vec_len es.items) (vec_capacity es.items) × HasRoom es.room (vec_len es.next) (vec_capacity es.next) × HasRoom es.room (vec_len es.groups) (vec_capacity es.groups) × HasRoom es.room (vec_len es.items) (2 ^ 32 - 1) × AreGrouped es.items.items es.next.items es.groups.items };
}

// How the enlistment's Id stands to this one.
fn order_from(e: &Enlistment, id: Id) -> Ordering
    ensures { result ≡ id_order e.now.id id }
{
    order_of(e.id, id)
}

// Where the enlistment with this Id stands, by halves.
fn place(enlistments: &[Enlistment], id: Id) -> Option<usize>
    requires { are_rising (λ e. e.id) enlistments.now ≡ true }
    ensures { MatchOption result (IsNowhere (λ e. e.id) enlistments.now id) (IsAt (λ e. e.id) enlistments.now id) }
{
    match enlistments.binary_search_by(|e| order_from(e, id)) {
        Ok(place) => Some(place),
        Err(_) => None,
    }
}

// The enlistment has this recovery information from now on.
fn keep_information(e: &mut Enlistment, information: Bytes)
    ensures { e.new ≡ record e.old { information = information } }
{
    e.information = information;
}

// The last enlistment of a transaction before, if there is one, names the one at this place as the next one.
fn link(next: &mut [Option<u32>], last: Option<u32>, place: u32)
    requires { IfSome last (λ at. at < length next.old) }
    ensures { next.new ≡ linked next.old last place }
{
    if let Some(last) = last {
        next[last as usize] = Some(place);
    }
}

impl Enlistments {
    /// No enlistments.
    pub fn new(alloc: Global) -> Self
        ensures { result.enlistments ≡ [] }
    {
        Enlistments {
            items: Vec::new(alloc),
            next: Vec::new(alloc),
            groups: Vec::new(alloc),
            room: 0,
        }
    }

    /// The enlistments, in order.
    pub fn as_slice(&self) -> &[Enlistment]
        ensures { result.now ≡ self.now.enlistments }
    {
        &self.items
    }

    /// Makes room for one enlistment more.
    pub fn reserve(&mut self) -> Result<(), NoMemory>
        ensures room { OnOk result (1 ≤ self.new.room) }
        ensures enough { 1 ≤ self.old.room → IsOk result }
        ensures grows { self.old.room ≤ self.new.room }
        ensures enlistments { self.new.enlistments ≡ self.old.enlistments }
    {
        if self.room > 0 {
            return Ok(());
        }
        if self.items.len() >= MOST {
            return Err(NoMemory);
        }
        self.items.reserve(1)?;
        self.next.reserve(1)?;
        self.groups.reserve(1)?;
        self.room = 1;
        Ok(())
    }

    /// An enlistment more, behind all others. It takes no memory.
    pub fn add(&mut self, e: Enlistment)
        requires room { 1 ≤ self.old.room }
        requires behind { list_all (λ other. is_before other.id e.id) self.old.enlistments ≡ true }
        ensures enlistments { self.new.enlistments ≡ self.old.enlistments ++ e ∷ [] }
        ensures room { self.new.room + 1 ≡ self.old.room }
    {
        let place = self.items.len() as u32;
        let last = join(&mut self.groups, &e, place);
        link(&mut self.next, last, place);
        self.next.push_reserved(None);
        self.items.push_reserved(e);
        self.room -= 1;
    }

    /// The enlistment with this Id.
    pub fn find(&self, id: Id) -> Option<&Enlistment>
        ensures { option_copied result ≡ enlistment_at self.now.enlistments id }
    {
        match place(&self.items, id) {
            Some(place) => Some(&self.items[place]),
            None => None,
        }
    }

    // What is kept of the transaction, if it has enlistments.
    fn group(&self, transaction: Id) -> Option<Group>
        ensures group { GroupFor self.now.enlistments transaction result }
        ensures enlisted { AreEnlisted self.now.enlistments }
    {
        group_in(&self.groups, transaction)
    }

    /// What counts of the enlistments of the transaction.
    pub fn counts(&self, transaction: Id) -> Counts
        ensures { AreCounts result transaction self.now.enlistments }
    {
        match self.group(transaction) {
            Some(group) => group.counts,
            None => Counts::NONE,
        }
    }

    /// How many enlistments of the transaction are live, as long as that has not ended.
    pub fn live(&self, transaction: Id) -> u32
        ensures live { result ≡ count_by (is_live_until_end transaction) self.now.enlistments }
        ensures enlisted { AreEnlisted self.now.enlistments }
    {
        match self.group(transaction) {
            Some(group) => group.live,
            None => 0,
        }
    }

    /// The superior of the transaction, if it has one.
    pub fn superior(&self, transaction: Id) -> Option<&Enlistment>
        ensures { option_copied result ≡ superior_of self.now.enlistments transaction }
    {
        match self.superior_place(transaction) {
            Some(place) => Some(&self.items[place as usize]),
            None => None,
        }
    }

    /// Is an enlistment of the transaction still to answer that it has finished.
    pub fn has_unfinished(&self, transaction: Id) -> bool
        ensures { result ≡ list_any (is_unfinished transaction) self.now.enlistments }
    {
        match self.group(transaction) {
            Some(group) => group.unfinished > 0,
            None => false,
        }
    }

    // The place of the superior of the transaction, if it has one.
    fn superior_place(&self, transaction: Id) -> Option<u32>
        ensures { result ≡ place_from (is_superior_of transaction) 0 self.now.enlistments }
    {
        match self.group(transaction) {
            Some(group) => group.superior,
            None => None,
        }
    }

    // The place of the first enlistment of the transaction, if it has one.
    fn first(&self, transaction: Id) -> Option<u32>
        ensures { result ≡ place_from (is_own transaction) 0 self.now.enlistments }
    {
        match self.group(transaction) {
            Some(group) => Some(group.first),
            None => None,
        }
    }

    // The place of the next enlistment of the same transaction, if it has one.
    fn behind(&self, place: u32) -> Option<u32>
        requires { place < length self.now.enlistments }
        ensures { (id : Named) → PassesAt (is_own id) self.now.enlistments place → result ≡ place_from (is_own id) (place + 1) (drop (place + 1) self.now.enlistments) }
    {
        self.next[place as usize]
    }

    // The enlistment at the place is told, if it is one of those. The visit is a step.
    fn tell_at<L: Ledger>(
        &mut self,
        managers: &mut Managers,
        place: usize,
        t: Told,
        steps: &mut Steps<L>,
    )
        requires within { place < length self.old.enlistments }
        requires there { (d : Member) → has_manager managers.old.managers (slice_index_or self.old.enlistments place d) ≡ true }
        requires spare { (d : Member) → length (told (is_one_of t.transaction t.caller t.who) t.kind (slice_index_or self.old.enlistments place d)) ≤ managers.old.spare }
        ensures enlistments { self.new.enlistments ≡ changed (asked_if (is_one_of t.transaction t.caller t.who) t.owed) self.old.enlistments place }
        ensures room { self.new.room ≡ self.old.room }
        ensures managers { (d : Member) → managers.new.managers ≡ map (served None (told (is_one_of t.transaction t.caller t.who) t.kind (slice_index_or self.old.enlistments place d))) managers.old.managers }
        ensures spare { (d : Member) → managers.new.spare + length (told (is_one_of t.transaction t.caller t.who) t.kind (slice_index_or self.old.enlistments place d)) ≡ managers.old.spare }
        ensures room_for_managers { managers.new.room ≡ managers.old.room }
        ensures counted { steps.new ≡ steps.old + 1 }
    {
        steps.tick();
        let e = &mut self.items[place];
        let transaction = e.transaction;
        let was = standing_of(e);
        tell_one(e, managers, t);
        let is = standing_of(e);
        regroup(&mut self.groups, transaction, was, is);
    }

    // Each enlistment of the transaction that is one of those is told, in their order.
    fn tell_group<L: Ledger>(&mut self, managers: &mut Managers, t: Told, steps: &mut Steps<L>)
        requires own { is_of_transaction t.who ≡ true }
        requires may { MayTell t self.old.enlistments managers.old }
        ensures told { HasTold t self.old self.new managers.old managers.new }
        ensures counted { steps.new ≡ steps.old + visited t.transaction t.caller t.who self.old.enlistments }
    {
        let mut next = self.first(t.transaction);
        while let Some(place) = next {
            self.tell_at(managers, place as usize, t, steps);
            next = self.behind(place);
        }
    }

    // The enlistment that calls is told, if there is one.
    fn tell_caller<L: Ledger>(&mut self, managers: &mut Managers, t: Told, steps: &mut Steps<L>)
        requires calls { t.who ≡ Who.Caller }
        requires may { MayTell t self.old.enlistments managers.old }
        ensures told { HasTold t self.old self.new managers.old managers.new }
        ensures counted { steps.new ≡ steps.old + visited t.transaction t.caller t.who self.old.enlistments }
    {
        if let Some(place) = self.caller_place(t.caller) {
            self.tell_at(managers, place, t, steps);
        }
    }

    // Where the enlistment that calls stands, if there is one.
    fn caller_place(&self, caller: Option<Id>) -> Option<usize>
        ensures { MatchOption result (HasNone (is_given caller) self.now.enlistments) (IsOnlyAt (is_given caller) self.now.enlistments) }
    {
        match caller {
            Some(id) => place(&self.items, id),
            None => None,
        }
    }

    /// Each of those enlistments of the transaction is told this, where one calls, and owes an answer from then on, if there
    /// is one to owe. It takes no memory. Each enlistment that is visited is a step: all of the transaction where those may be
    /// several, else the one that calls.
    pub fn tell<L: Ledger>(
        &mut self,
        managers: &mut Managers,
        transaction: Id,
        caller: Option<Id>,
        who: Who,
        kind: Notify,
        owed: Option<Owed>,
        steps: &mut Steps<L>,
    )
        requires there { list_all (has_manager managers.old.managers) self.old.enlistments ≡ true }
        requires spare { length (filter (is_one_of transaction caller who) self.old.enlistments) ≤ managers.old.spare }
        ensures enlistments { self.new.enlistments ≡ with_enlistments (is_one_of transaction caller who) (asked owed) self.old.enlistments }
        ensures room { self.new.room ≡ self.old.room }
        ensures managers { managers.new.managers ≡ map (served None (map (tell kind) (filter (is_one_of transaction caller who) self.old.enlistments))) managers.old.managers }
        ensures spare { managers.new.spare + length (filter (is_one_of transaction caller who) self.old.enlistments) ≡ managers.old.spare }
        ensures room_for_managers { managers.new.room ≡ managers.old.room }
        ensures counted { steps.new ≡ steps.old + visited transaction caller who self.old.enlistments }
    {
        let told = Told {
            transaction,
            caller,
            who,
            kind,
            owed,
        };
        match who {
            Who::Caller => self.tell_caller(managers, told, steps),
            _ => self.tell_group(managers, told, steps),
        }
    }

    /// The enlistment with this Id, if there is one, has answered so.
    pub fn answer(&mut self, id: Id, answer: Answered)
        ensures enlistments { self.new.enlistments ≡ with_enlistments (has_id id) (answered answer) self.old.enlistments }
        ensures room { self.new.room ≡ self.old.room }
    {
        if let Some(place) = place(&self.items, id) {
            let e = &mut self.items[place];
            let transaction = e.transaction;
            let was = standing_of(e);
            e.answer(answer);
            let is = standing_of(e);
            regroup(&mut self.groups, transaction, was, is);
        }
    }

    /// The enlistment with this Id, if there is one, has this recovery information from now on.
    pub fn inform(&mut self, id: Id, information: Bytes)
        ensures enlistments { self.new.enlistments ≡ with_enlistments (has_id id) (λ e. record e { information = information }) self.old.enlistments }
        ensures room { self.new.room ≡ self.old.room }
    {
        if let Some(place) = place(&self.items, id) {
            keep_information(&mut self.items[place], information);
        }
    }
}
