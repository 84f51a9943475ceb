// The state of an image while its log is read, over the places of bytes, with the owner of each page.
ghost use Rattle.std.specs.Prelude.{◌≡◌, ℕ, ◌<◌, ◌≤◌, [], IfOk, Ok, All, false, true, length, slice_set};
ghost use Rattle.ktm_journal.specs.Image.{page_count};
ghost use Rattle.ktm_owners.specs.Owners.{AreOwnersOf, AreThere, BeginsUnit, LeavesGiven, all_given, may_give};
ghost use Rattle.ktm_paged.specs.Paged.{IsApart, IsPlainlyMade, LieBelow, PagedApplies, PutLiesBelow, paged_after};
ghost use Rattle.ktm_replayed.specs.Settings.{IsSingleAt};
ghost use Rattle.ktm_restart.specs.Logs.{IsOnPages};
ghost use Rattle.ktm_restart.specs.Reading.{EventLeaves, IsReadWell, ReadsOn};
ghost use Rattle.txf_laws.specs.GoodState.{IsGoodState};
ghost use Rattle.txf_laws.specs.Grammatical.{changes_of_event, is_grammatical};
ghost use Rattle.ktm_world.specs.Durable.{after_event, event_applies};

use crate::durable::Durable;
use crate::lying::lie_below;
use crate::meaning::{event_meant, is_event_below};
use crate::naming::{name_event, name_state};
use ktm_base::{Id, NoMemory};
use ktm_event::{EventFault, read_event};
use ktm_owners::{Named, Owners, is_same_unit};
use ktm_paged::law_of_paged_records;
use ktm_replayed::{Replayed, settings_alone};
use ktm_world::Event;
use std::alloc::Global;
use std::marker::Model;
use txf_laws::{law_of_good_states, law_of_grammar};

/// What a snapshot and the events that were read so far come to, over the places of bytes, and the owner of each page.
#[derive(Drop)]
pub(crate) struct Reading {
    replayed: Replayed,
    owners: Owners,
}

impl Model for Reading {
    ghost use Rattle.ktm_restart.specs.Reading.{ReadingState};

    ghost Value = { ReadingState };

    ghost view = { λ r. record { state = r.replayed.state; owners = r.owners.owners } };
}

// Gives a page to a unit, if no other unit lies on it still.
fn give(replayed: &Replayed, owners: &mut Owners, name: Named) -> bool
    requires { name.page < length owners.old.owners }
    ensures may { result ≡ may_give replayed.now.state owners.old.owners name }
    ensures given { result ≡ true → owners.new.owners ≡ slice_set owners.old.owners name.page name.owner }
    ensures named { owners.new.named ≡ owners.old.named }
{
    let owner = owners.owner(name.page);
    if !is_same_unit(owner, name.owner) && replayed.is_still_on(owner, name.page) {
        return false;
    }
    owners.give(name);
    true
}

// Gives all pages that are named, one after another.
#[inline(always)]
fn give_named(replayed: &Replayed, owners: &mut Owners) -> bool
    requires { AreThere (length owners.old.owners) owners.old.named }
    ensures { LeavesGiven (all_given replayed.now.state owners.old.owners owners.old.named) owners.new.owners result }
{
    for at in 0..owners.named_count() {
        let name = owners.named(at);
        if !give(replayed, owners, name) {
            return false;
        }
    }
    true
}

// Gives all pages of a good state to their units, if each is that of one unit.
fn give_state(replayed: &Replayed, owners: &mut Owners) -> Result<bool, NoMemory>
    requires good { IsGoodState replayed.now.state }
    requires below { LieBelow (length owners.old.owners) replayed.now.state }
    ensures many { result ≡ Ok true → length owners.new.owners ≡ length owners.old.owners }
    ensures known { result ≡ Ok true → AreOwnersOf owners.new.owners replayed.now.state }
    ensures shared { result ≡ Ok false → ¬ IsApart replayed.now.state }
{
    name_state(replayed, owners)?;
    Ok(give_named(replayed, owners))
}

// Does the good state lie on pages of its image, each of which has one unit of one file. The owners have no page before, and then
// have all of these.
fn is_on_pages(replayed: &Replayed, owners: &mut Owners) -> Result<bool, NoMemory>
    requires good { IsGoodState replayed.now.state }
    requires many { length owners.old.owners ≡ page_count replayed.now.state.units }
    ensures on { result ≡ Ok true → IsOnPages replayed.now.state × IsReadWell (record { state = replayed.now.state; owners = owners.new.owners }) }
    ensures off { result ≡ Ok false → ¬ IsOnPages replayed.now.state }
{
    if !lie_below(owners.count(), replayed) {
        return Ok(false);
    }
    give_state(replayed, owners)
}

impl Reading {
    /// A state, with owners of pages.
    pub(crate) fn new(replayed: Replayed, owners: Owners) -> Self
        ensures { result ≡ record { state = replayed.state; owners = owners.owners } }
    {
        Reading { replayed, owners }
    }

    // Does the good state of a snapshot lie on pages of its image. The owners have no page before, and then have all of these.
    fn is_on_pages(&mut self) -> Result<bool, NoMemory>
        requires good { IsGoodState self.old.state }
        requires many { length self.old.owners ≡ page_count self.old.state.units }
        ensures on { result ≡ Ok true → (self.new.state ≡ self.old.state) × IsOnPages self.new.state × IsReadWell self.new }
        ensures off { result ≡ Ok false → ¬ IsOnPages self.old.state }
    {
        is_on_pages(&self.replayed, &mut self.owners)
    }

    /// The good state of a snapshot, if it is on pages. The owners have no page before.
    pub(crate) fn if_on_pages(mut self) -> Result<Option<Self>, NoMemory>
        requires good { IsGoodState self.state }
        requires many { length self.owners ≡ page_count self.state.units }
        ensures { IfOk result (ReadsOn self.state) }
    {
        match self.is_on_pages() {
            Ok(true) => Ok(Some(self)),
            Ok(false) => {
                drop(self);
                Ok(None)
            }
            Err(NoMemory) => {
                drop(self);
                Err(NoMemory)
            }
        }
    }

    /// The state that was read.
    pub(crate) fn into_durable(self) -> Durable
        ensures { result ≡ self.state }
    {
        let Reading { replayed, .. } = self;
        Durable::from(replayed)
    }

    // Applies an event over the places of bytes, and then gives the pages that it names to their units, if it applies and no other
    // unit lies on these then.
    fn apply_meant(&mut self, event: Event) -> Result<bool, NoMemory>
        requires well { IsReadWell self.old }
        requires grammatical { is_grammatical event ≡ true }
        requires made { IsPlainlyMade self.old.state.tree event }
        requires puts { All (PutLiesBelow (page_count self.old.state.units)) (changes_of_event event) }
        requires begins { All BeginsUnit (changes_of_event event) }
        ensures applies { result ≡ Ok true → event_applies self.old.state event ≡ true }
        ensures after { result ≡ Ok true → (self.new.state ≡ after_event self.old.state event) × IsReadWell self.new }
        ensures bad { result ≡ Ok false → event_applies self.old.state event ≡ true → ¬ IsApart (after_event self.old.state event) }
    {
        law_of_good_states();
        name_event(&event, &mut self.owners)?;
        if !self.replayed.apply(event)? {
            return Ok(false);
        }
        Ok(give_named(&self.replayed, &mut self.owners))
    }

    // Applies an event as it is recorded. It answers false where it does not apply; what is read is then of no use, as it is where
    // memory runs out.
    fn apply(&mut self, event: Event) -> Result<bool, NoMemory>
        requires well { IsReadWell self.old }
        requires grammatical { is_grammatical event ≡ true }
        ensures applies { result ≡ Ok true → PagedApplies (page_count self.old.state.units) self.old.state event }
        ensures after { result ≡ Ok true → (self.new.state ≡ paged_after self.old.state event) × IsReadWell self.new }
        ensures bad { result ≡ Ok false → ¬ PagedApplies (page_count self.old.state.units) self.old.state event }
    {
        law_of_paged_records();
        if !is_event_below(self.owners.count(), &event) {
            return Ok(false);
        }
        match event_meant(self.replayed.tree(), event) {
            Some(event) => self.apply_meant(event),
            None => Ok(false),
        }
    }

    // Reads the event at a place of the bytes, and applies it as it is recorded, up to the place that is answered.
    fn apply_read(
        &mut self,
        alloc: Global,
        bytes: &[u8],
        at: usize,
    ) -> Result<Option<usize>, NoMemory>
        requires { IsReadWell self.old }
        ensures { IfOk result (EventLeaves bytes.now at self.old self.new) }
    {
        law_of_grammar();
        let (event, end) = match read_event(alloc, bytes, at) {
            Ok(read) => read,
            Err(EventFault::NotAnEvent) => return Ok(None),
            Err(EventFault::NoMemory) => return Err(NoMemory),
        };
        if !self.apply(event)? {
            return Ok(None);
        }
        Ok(Some(end))
    }

    // Applies the event that a transaction commits alone the settings which lie at a place, and gives the place behind them.
    fn apply_settings(
        &mut self,
        transaction: Id,
        bytes: &[u8],
        settings: usize,
    ) -> Result<Option<usize>, NoMemory>
        requires well { IsReadWell self.old }
        requires none { self.old.state.transactions ≡ [] }
        ensures { (at : ℕ) → IsSingleAt bytes.now at transaction settings → IfOk result (EventLeaves bytes.now at self.old self.new) }
    {
        law_of_grammar();
        law_of_good_states();
        self.replayed.apply_settings(transaction, bytes, settings)
    }

    /// Applies the event at a place of the bytes as it is recorded, and gives the place behind it. There is none where no event lies
    /// there that applies; what is read is then of no use, as it is where memory runs out.
    pub(crate) fn apply_at(
        &mut self,
        alloc: Global,
        bytes: &[u8],
        at: usize,
    ) -> Result<Option<usize>, NoMemory>
        requires { IsReadWell self.old }
        ensures { IfOk result (EventLeaves bytes.now at self.old self.new) }
    {
        if self.replayed.has_no_transactions() {
            if let Some((transaction, settings)) = settings_alone(bytes, at) {
                return self.apply_settings(transaction, bytes, settings);
            }
        }
        self.apply_read(alloc, bytes, at)
    }
}
