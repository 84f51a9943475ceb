// The durable state in memory while an image is read, and what each event makes of it.
ghost use Rattle.std.specs.Prelude.{◌≡◌, ◌&&◌, ◌+◌, ◌^◌, ◌<◌, ◌≤◌, [], ◌∷◌, Ok, None, Some, not, false, true, IfOk, IsOk, OnOk, is_none, length, nat_eq, nat_le, nat_lt, sum_by};
ghost use Rattle.std.specs.List.{flat_map, list_all, list_any};
ghost use Rattle.ktm_world.specs.declared.event.Event.TheVariants.{Boot, MadeRm, Plain, Ready, Single, Held, Decide, Undo, Done};
ghost use Rattle.ktm_base.specs.declared.id.Id.{Id as Number};
ghost use Rattle.ktm_base.specs.declared.limits.TheConstants.{MOST_LIVE};
ghost use Rattle.ktm_world.specs.Changes.{changes_apply};
ghost use Rattle.ktm_world.specs.Durable.{after_event, after_events, are_recorded_changes, changes_in as changes_of_part, event_applies, events_apply, fact_of, has_changes_part, has_settings_part, has_undone, hold_recorded, is_new_enlistment, is_new_in, is_ready, is_within_limits, may_get_ready, part_applies, recorded_at, recorded_changes_apply, recorded_or_new, settings_apply, stage_passes, with_committed, with_part};
ghost use Rattle.ktm_world.specs.Holds.{holds_by};
ghost use Rattle.ktm_world.specs.Keys.{are_good_settings};
ghost use Rattle.ktm_world.specs.Tree.{IsWellFormed, bytes_or_none, units_of};
ghost use Rattle.ktm_world.specs.World.{own_events, own_group};
ghost use Rattle.ktm_owners.specs.Owners.{is_still_on, parts_put, puts_unit};
ghost use Rattle.ktm_paged.specs.Paged.{IsPlainlyMade};
ghost use Rattle.ktm_replayed.specs.Replayed.{Takes, passes_units};
ghost use Rattle.ktm_replayed.specs.Settings.{CommittedUpTo, TakenUpTo};
ghost use Rattle.ktm_saved.specs.Saved.{state_of};
ghost use Rattle.ktm_waiting.specs.Waiting.{AreHeld, AreKept, AreSpared, committed, others_change};
ghost use Rattle.txf_reserve.specs.ReserveState.{IsSameHold, holds_in};
ghost use Rattle.txf_tree.specs.TreeState.{tree_of, versions_of};
ghost use Rattle.txf_tree.specs.UnitChanges.{CanAllBeMade, CanBeMade};

use crate::own::first_own;
use crate::parts::DurableParts;
use crate::settings::make_all_in;
use ktm_base::{Bytes, Id, MOST_INFORMATION_BYTES, MOST_LIVE, NoMemory, UNIT_BYTES};
use ktm_codec::u32_at;
use ktm_keyed::KeyedList;
use ktm_owners::{Owner, has_unit};
use ktm_saved::Saved;
use ktm_waiting::{
    Amounts, Managers, Transactions, changes_in, fits_in, hold_changes, limits, others_change,
    others_set, release_changes, release_ready, without,
};
use ktm_world::{
    Change, DonePart, Event, Part, Recorded, RecordedPart, Setting, Superior, are_good_settings,
    make_all,
};
use std::alloc::Global;
use std::marker::Model;
use std::mem::replace;
use txf_durable::{DurableFiles, FileNumbers, Waiting, are_recorded_changes};
use txf_laws::law_of_lists;
use txf_tree::{Tree, bytes_in};

/// The most events that an image may ever record.
const MOST_EVENTS: u64 = (1 << 63) - 1;

/// What a snapshot and the events that were read so far stand for, with the memory that is there for the next one.
#[derive(Drop)]
pub struct Replayed {
    alloc: Global,
    units: u32,
    image: u16,
    events: u64,
    boots: u32,
    files: DurableFiles,
    keys: KeyedList<Bytes>,
    managers: Managers,
    // The changes and the settings that wait are in the parts of their transactions, as they came.
    transactions: Transactions,
    // What these changes hold of the files.
    waiting: Waiting,
    // The files that a transaction writes, while its changes are tested.
    written: FileNumbers,
}

impl Model for Replayed {
    ghost use Rattle.ktm_replayed.specs.Replayed.{ReplayedState};
    ghost use Rattle.txf_tree.specs.TreeState.{tree_of};

    ghost Value = { ReplayedState };

    ghost view = { λ s. record {
      state = record {
        units = s.units;
        image = s.image;
        events = s.events;
        boots = s.boots;
        next_node = s.files.next_node;
        tree = tree_of s.files.tree;
        keys = s.keys.items;
        managers = s.managers.managers;
        transactions = s.transactions.transactions;
      };
      files = s.files.tree;
      keys = s.keys.spare;
      managers = s.managers.spare;
      written = s.written;
    } };

    ghost use Rattle.ktm_waiting.specs.Waiting.{AreHeld};

    ghost invariant = { λ s. AreHeld s.waiting (tree_of s.files.tree) s.transactions.transactions };
}

// Would the change leave its file longer than all units of the image together: it is then refused before memory is taken for
// it.
fn passes_units(units: u32, change: &Change) -> bool
    ensures { result ≡ passes_units units change.now }
{
    let most = u128::from(units) * u128::from(UNIT_BYTES);
    match change {
        Change::Put {
            offset,
            contents,
            ..
        } => u128::from(*offset) + u128::from(bytes_in(contents).len()) > most,
        Change::Cut { size, .. } => u128::from(*size) > most,
        _ => false,
    }
}

// Does the change put this unit on this page, into a file that is cut to nothing before.
fn puts_unit(owner: Owner, page: u32, change: &Change) -> bool
    ensures { result ≡ puts_unit owner page change.now }
{
    match change {
        Change::Put {
            node,
            offset,
            contents,
        } => *node == owner.node && *offset == 0 && has_unit(bytes_in(contents), owner.unit, page),
        _ => false,
    }
}

// Does the part put this unit on this page.
fn part_puts(owner: Owner, page: u32, p: &RecordedPart) -> bool
    ensures { result ≡ list_any (puts_unit owner page) (changes_of_part p.now.part) }
{
    changes_in(&p.part)
        .iter()
        .any(|change| puts_unit(owner, page, change))
}

// Does one of the parts put this unit on this page.
fn some_part_puts(owner: Owner, page: u32, parts: &[RecordedPart]) -> bool
    ensures { result ≡ list_any (λ part. list_any (puts_unit owner page) (changes_of_part part.part)) parts.now }
{
    parts.iter().any(|p| part_puts(owner, page, p))
}

// Does a part of the transaction put this unit on this page.
fn parts_put(owner: Owner, page: u32, transaction: &Recorded) -> bool
    ensures { result ≡ parts_put owner page transaction.now }
{
    some_part_puts(owner, page, &transaction.parts)
}

// What waits is forgotten.
fn forget(alloc: Global, waiting: &mut Waiting, transactions: &mut Transactions)
    ensures waiting { (id : Number) → IsSameHold (holds_in waiting.new id) (holds_by [] [] []) }
    ensures transactions { transactions.new.transactions ≡ [] }
{
    drop(replace(waiting, Waiting::new(alloc)));
    transactions.clear();
}

impl Replayed {
    /// The state of a snapshot of an image with so many units and this number.
    pub fn from(alloc: Global, saved: Saved, units: u32, image: u16) -> Self
        requires { AreHeld saved.waiting (tree_of saved.files.tree) saved.transactions.transactions }
        ensures { result.state ≡ state_of units image saved }
    {
        let Saved {
            events,
            boots,
            files,
            keys,
            managers,
            transactions,
            waiting,
        } = saved;
        Replayed {
            alloc,
            units,
            image,
            events,
            boots,
            files,
            keys,
            managers,
            transactions,
            waiting,
            written: FileNumbers::new(alloc),
        }
    }

    /// How many units the image has.
    pub fn units(&self) -> u32
        ensures { result ≡ self.now.state.units }
    {
        self.units
    }

    /// The image's number.
    pub fn image(&self) -> u16
        ensures { result ≡ self.now.state.image }
    {
        self.image
    }

    /// How many events were ever recorded.
    pub fn events(&self) -> u64
        ensures { result ≡ self.now.state.events }
    {
        self.events
    }

    /// How many boots there were.
    pub fn boots(&self) -> u32
        ensures { result ≡ self.now.state.boots }
    {
        self.boots
    }

    /// The durable resource managers, by rising Id.
    pub fn managers(&self) -> &[Id]
        ensures { result.now ≡ self.now.state.managers }
    {
        self.managers.as_slice()
    }

    /// The transactions that are not over, by rising Id.
    pub fn transactions(&self) -> &[Recorded]
        ensures { result.now ≡ self.now.state.transactions }
    {
        self.transactions.as_slice()
    }

    /// What a machine starts from.
    pub fn into_parts(self) -> DurableParts
        ensures tree { tree_of result.files.tree ≡ self.state.tree }
        ensures versions { versions_of result.files.tree ≡ [] }
        ensures units { result.files.units ≡ sum_by (λ node. units_of (bytes_or_none node.content)) self.state.tree }
        ensures next_node { result.files.next_node ≡ self.state.next_node }
        ensures keys { result.keys.items ≡ self.state.keys }
        ensures managers { result.managers.items ≡ self.state.managers }
        ensures transactions { result.transactions.items ≡ self.state.transactions }
    {
        let Replayed {
            files,
            keys,
            managers,
            transactions,
            waiting,
            ..
        } = self;
        drop(waiting);
        DurableParts {
            files: files.into_parts(),
            keys,
            managers: managers.into_vec(),
            transactions: transactions.into_vec(),
        }
    }

    // What the files and the keys take.
    fn committed(&self) -> Amounts
        ensures { result ≡ committed self.now.state.tree self.now.state.keys }
    {
        Amounts {
            units: u128::from(self.files.units()),
            nodes: self.files.nodes() as u128 + 1,
            keys: self.keys.len() as u128,
            changes: 0,
            enlistments: 0,
        }
    }

    // Is what is committed within the limits, and are there no more resource managers than there may be.
    fn is_committed_within(&self) -> bool
        ensures { result ≡ (nat_le (sum_by (λ node. units_of (bytes_or_none node.content)) self.now.state.tree) self.now.state.units && nat_lt (length self.now.state.tree) self.now.state.units && nat_le (length self.now.state.keys) self.now.state.units && nat_le (length self.now.state.managers) MOST_LIVE) }
    {
        let most = u64::from(self.units);
        self.files.units() <= most
            && (self.files.nodes() as u64) < most
            && self.keys.len() as u64 <= most
            && self.managers.len() <= MOST_LIVE
    }

    // Is the state within the limits. It goes through nothing that waits, and through nothing that is committed.
    fn is_within(&self) -> bool
        ensures { result ≡ is_within_limits self.now.state }
    {
        if self.has_no_transactions() {
            return self.is_committed_within();
        }
        let Some(room) = without(limits(self.units), self.committed()) else {
            return false;
        };
        self.are_few() && fits_in(&self.transactions.taken(), &room)
    }

    // Are there no more transactions and resource managers than there may be.
    fn are_few(&self) -> bool
        ensures { result ≡ (nat_le (length self.now.state.transactions) MOST_LIVE && nat_le (length self.now.state.managers) MOST_LIVE) }
    {
        self.transactions.as_slice().len() <= MOST_LIVE && self.managers.len() <= MOST_LIVE
    }

    // May one event more be recorded.
    fn has_events_left(&self) -> bool
        ensures { result ≡ nat_lt (self.now.state.events + 1) (2 ^ 63) }
    {
        self.events < MOST_EVENTS
    }

    // A boot forgets the transactions that are ready and neither held nor decided.
    fn start(&mut self, boot: u32)
        ensures { self.new.state ≡ fact_of self.old.state (Boot boot) }
    {
        self.boots = boot;
        release_ready(&mut self.waiting, self.transactions.as_slice());
        self.transactions.forget_ready(&self.files);
    }

    // A restart of the machine counts a boot.
    fn boot(&mut self, boot: u32) -> bool
        ensures { Takes self.old.state (Boot boot) result self.new.state }
    {
        if boot == u32::MAX || u64::from(boot) != u64::from(self.boots) + 1 {
            return false;
        }
        self.start(boot);
        true
    }

    // A durable resource manager was made.
    fn add_manager(&mut self, manager: Id) -> Result<bool, NoMemory>
        ensures { IfOk result (λ taken. Takes self.old.state (MadeRm manager) taken self.new.state) }
    {
        if manager.boot != self.boots || self.managers.contains(manager) {
            return Ok(false);
        }
        self.managers.add(manager)?;
        Ok(true)
    }

    /// The committed files.
    pub fn tree(&self) -> &Tree
        ensures { tree_of result.now ≡ self.now.state.tree }
    {
        self.files.tree()
    }

    // Does a transaction put the owner's unit on this page, and wait.
    fn is_put_on(&self, owner: Owner, page: u32) -> bool
        ensures { result ≡ list_any (parts_put owner page) self.now.state.transactions }
    {
        self.transactions()
            .iter()
            .any(|t| parts_put(owner, page, t))
    }

    /// Does the owner's unit lie on this page still: as it is committed, or as a transaction puts it that waits.
    pub fn is_still_on(&self, owner: Owner, page: u32) -> bool
        ensures { result ≡ is_still_on self.now.state owner page }
    {
        has_unit(self.tree().content(owner.node), owner.unit, page) || self.is_put_on(owner, page)
    }

    // What waits is kept, and the files are well formed.
    fn law_of_kept(&self)
        ensures kept { AreKept self.now.state.tree self.now.state.transactions }
        ensures formed { IsWellFormed self.now.state.tree }
    {
        self.files.law_of_forms();
    }

    // Does another transaction wait with changes.
    fn others_change(&self, who: Option<Id>) -> bool
        ensures { result ≡ others_change who self.now.state.transactions }
    {
        others_change(self.transactions.as_slice(), who)
    }

    // Does a change, if it applies, meet nothing that a transaction holds.
    fn is_free(&self, change: &Change) -> bool
        ensures { (result && (changes_apply self.now.state.tree (change.now ∷ []) && list_all (is_new_in self.now.state.tree) (change.now ∷ []))) ≡ recorded_changes_apply self.now.state None (change.now ∷ []) }
    {
        if !self.others_change(None) {
            return true;
        }
        self.files.tree().applies(change) && !self.waiting.meets_one(&self.files, change)
    }

    // A plain call changed the files. One that would leave its file too long is refused before memory is taken for it.
    fn change_plainly(&mut self, change: Change) -> Result<bool, NoMemory>
        requires { CanBeMade self.old.state.tree change }
        ensures { IfOk result (λ taken. Takes self.old.state (Plain change) taken self.new.state) }
    {
        if passes_units(self.units, &change) {
            return Ok(false);
        }
        self.commit_change(change)
    }

    // Commits one change, if it applies.
    fn commit_change(&mut self, change: Change) -> Result<bool, NoMemory>
        requires { CanBeMade self.old.state.tree change }
        ensures applies { IfOk result (λ applied. applied ≡ recorded_changes_apply self.old.state None (change ∷ [])) }
        ensures after { result ≡ Ok true → self.new.state ≡ with_committed self.old.state (change ∷ []) [] }
    {
        if !self.is_free(&change) {
            return Ok(false);
        }
        self.law_of_kept();
        self.make_one(change)
    }

    // Makes a change that meets nothing, if it applies. Where it is not made, the files are of no use, and what waits is forgotten.
    fn make_one(&mut self, change: Change) -> Result<bool, NoMemory>
        requires units { CanBeMade self.old.state.tree change }
        requires spared { changes_apply self.old.state.tree (change ∷ []) ≡ true → list_all (is_new_in self.old.state.tree) (change ∷ []) ≡ true
            → AreSpared self.old.state.tree self.old.state.transactions (change ∷ []) }
        ensures applies { IfOk result (λ applied. applied ≡ (changes_apply self.old.state.tree (change ∷ []) && list_all (is_new_in self.old.state.tree) (change ∷ []))) }
        ensures after { result ≡ Ok true → self.new.state ≡ with_committed self.old.state (change ∷ []) [] }
    {
        law_of_lists();
        self.law_of_kept();
        match self.files.commit_one(change) {
            Ok(true) => Ok(true),
            Ok(false) => {
                forget(self.alloc, &mut self.waiting, &mut self.transactions);
                Ok(false)
            }
            Err(NoMemory) => {
                forget(self.alloc, &mut self.waiting, &mut self.transactions);
                Err(NoMemory)
            }
        }
    }

    // Makes changes that meet nothing, if they apply. Where they are not made, the files are of no use, and what waits is forgotten.
    fn make_all(&mut self, changes: Vec<Change>) -> Result<bool, NoMemory>
        requires units { CanAllBeMade self.old.state.tree changes.items }
        requires spared { changes_apply self.old.state.tree changes.items ≡ true → list_all (is_new_in self.old.state.tree) changes.items ≡ true
            → AreSpared self.old.state.tree self.old.state.transactions changes.items }
        ensures applies { IfOk result (λ applied. applied ≡ (changes_apply self.old.state.tree changes.items && list_all (is_new_in self.old.state.tree) changes.items)) }
        ensures after { result ≡ Ok true → self.new.state ≡ with_committed self.old.state changes.items [] }
        ensures keys { result ≡ Ok true → self.new.keys ≡ self.old.keys }
    {
        law_of_lists();
        self.law_of_kept();
        match self.files.commit(changes) {
            Ok(true) => Ok(true),
            Ok(false) => {
                forget(self.alloc, &mut self.waiting, &mut self.transactions);
                Ok(false)
            }
            Err(NoMemory) => {
                forget(self.alloc, &mut self.waiting, &mut self.transactions);
                Err(NoMemory)
            }
        }
    }

    // Takes the memory for the numbers of the files that so many changes write.
    fn reserve_written(&mut self, changes: usize) -> Result<(), NoMemory>
        ensures room { OnOk result (changes ≤ self.new.written.room) }
        ensures state { self.new.state ≡ self.old.state }
        ensures files { self.new.files ≡ self.old.files }
    {
        self.written.reserve(changes)
    }

    // Have the changes the form in which a transaction records them.
    fn are_recorded(&mut self, changes: &[Change]) -> Result<bool, NoMemory>
        ensures recorded { IfOk result (λ are. are ≡ are_recorded_changes changes.now) }
        ensures state { self.new.state ≡ self.old.state }
        ensures files { self.new.files ≡ self.old.files }
    {
        self.reserve_written(changes.len())?;
        Ok(are_recorded_changes(&mut self.written, changes))
    }

    // Is there no transaction with this Id yet, which is of the present boot.
    fn may_commit_alone(&self, transaction: Id) -> bool
        ensures { result ≡ (nat_eq transaction.boot self.now.state.boots && is_none (recorded_at self.now.state.transactions transaction)) }
    {
        transaction.boot == self.boots && self.transactions.get(transaction).is_none()
    }

    // Do changes that apply meet what another transaction holds.
    fn meet_others(&self, who: Option<Id>, changes: &[Change]) -> Result<bool, NoMemory>
        requires recorded { are_recorded_changes changes.now ≡ true }
        requires apply { changes_apply self.now.state.tree changes.now ≡ true }
        requires new { list_all (is_new_in self.now.state.tree) changes.now ≡ true }
        ensures { IfOk result (λ met. recorded_changes_apply self.now.state who changes.now ≡ not met) }
    {
        if !self.others_change(who) {
            return Ok(false);
        }
        self.waiting.meets(&self.files, who, changes)
    }

    // Would recorded changes apply beside what others hold. None is made.
    fn would_apply(&self, who: Option<Id>, changes: &[Change]) -> Result<bool, NoMemory>
        requires { are_recorded_changes changes.now ≡ true }
        ensures { IfOk result (λ apply. apply ≡ recorded_changes_apply self.now.state who changes.now) }
    {
        if !self.files.would_apply(self.alloc, changes)? {
            return Ok(false);
        }
        Ok(!self.meet_others(who, changes)?)
    }

    // Do recorded changes, if they apply, meet nothing that another transaction holds. While none waits with changes, they are not tried.
    fn are_free(&self, who: Option<Id>, changes: &[Change]) -> Result<bool, NoMemory>
        requires { are_recorded_changes changes.now ≡ true }
        ensures { IfOk result (λ free. (free && (changes_apply self.now.state.tree changes.now && list_all (is_new_in self.now.state.tree) changes.now)) ≡ recorded_changes_apply self.now.state who changes.now) }
    {
        if !self.others_change(who) {
            return Ok(true);
        }
        self.would_apply(who, changes)
    }

    // Commits changes, if they have the form in which they are recorded, and apply.
    fn commit_changes(&mut self, transaction: Id, changes: Vec<Change>) -> Result<bool, NoMemory>
        requires { recorded_at self.old.state.transactions transaction ≡ None }
        ensures applies { IfOk result (λ applied. applied ≡ (are_recorded_changes changes.items && recorded_changes_apply self.old.state (Some transaction) changes.items)) }
        ensures after { result ≡ Ok true → self.new.state ≡ with_committed self.old.state changes.items [] }
    {
        if !self.are_recorded(&changes)? {
            return Ok(false);
        }
        if !self.are_free(Some(transaction), &changes)? {
            return Ok(false);
        }
        self.law_of_kept();
        self.make_all(changes)
    }

    // Are settings good ones, and does no other transaction set or unset one of their keys.
    fn settings_apply(&self, who: Option<Id>, settings: &[Setting]) -> bool
        ensures { result ≡ (are_good_settings settings.now && settings_apply self.now.state who settings.now) }
    {
        self.law_of_kept();
        are_good_settings(settings) && !others_set(self.transactions.as_slice(), who, settings)
    }

    // Commits settings, if they are good ones that no other transaction sets.
    fn commit_settings(&mut self, transaction: Id, settings: Vec<Setting>) -> Result<bool, NoMemory>
        ensures applies { IfOk result (λ applied. applied ≡ (are_good_settings settings.items && settings_apply self.old.state (Some transaction) settings.items)) }
        ensures after { result ≡ Ok true → self.new.state ≡ with_committed self.old.state [] settings.items }
    {
        if !self.settings_apply(Some(transaction), &settings) {
            return Ok(false);
        }
        self.keys.reserve(settings.len())?;
        make_all(&mut self.keys, settings);
        Ok(true)
    }

    // A transaction commits its one part.
    fn commit_part(&mut self, transaction: Id, part: Part) -> Result<bool, NoMemory>
        ensures { IfOk result (λ taken. Takes self.old.state (Single transaction part) taken self.new.state) }
    {
        if !self.may_commit_alone(transaction) {
            return Ok(false);
        }
        match part {
            Part::Changes(changes) => self.commit_changes(transaction, changes.into_vec()),
            Part::Settings(settings) => self.commit_settings(transaction, settings.into_vec()),
            Part::Enlistment { .. } => Ok(false),
        }
    }

    // Is the transaction of the present boot, and new or ready.
    fn may_get_ready(&self, transaction: Id) -> bool
        ensures { result ≡ may_get_ready self.now.state transaction }
    {
        transaction.boot == self.boots && self.transactions.is_ready(transaction)
    }

    // Is it an enlistment of the present boot that no transaction has, of a resource manager that is there.
    fn is_new_enlistment(&self, enlistment: Id, manager: Id, information: &[u8]) -> bool
        ensures { result ≡ is_new_enlistment self.now.state enlistment manager information.now }
    {
        enlistment.boot == self.boots
            && !self.transactions.has_enlistment(enlistment)
            && self.managers.contains(manager)
            && information.len() <= MOST_INFORMATION_BYTES
    }

    // May the changes wait: they are the first of their transaction, have the form in which they are recorded, and apply.
    fn may_wait(&mut self, transaction: Id, changes: &[Change]) -> Result<bool, NoMemory>
        ensures may { IfOk result (λ may. may ≡ (not (has_changes_part (recorded_or_new self.old.state.transactions transaction)) && are_recorded_changes changes.now && recorded_changes_apply self.old.state (Some transaction) changes.now)) }
        ensures state { self.new.state ≡ self.old.state }
    {
        if self.transactions.has_part_of(transaction, DonePart::Files)
            || !self.are_recorded(changes)?
        {
            return Ok(false);
        }
        self.would_apply(Some(transaction), changes)
    }

    // May the settings wait: they are the first of their transaction, and good ones that no other sets.
    fn may_set(&self, transaction: Id, settings: &[Setting]) -> bool
        ensures { result ≡ (not (has_settings_part (recorded_or_new self.now.state.transactions transaction)) && are_good_settings settings.now && settings_apply self.now.state (Some transaction) settings.now) }
    {
        !self.transactions.has_part_of(transaction, DonePart::Keys)
            && self.settings_apply(Some(transaction), settings)
    }

    // Does a part of a transaction apply.
    fn part_applies(&mut self, transaction: Id, part: &Part) -> Result<bool, NoMemory>
        ensures applies { IfOk result (λ applies. applies ≡ part_applies self.old.state transaction part.now) }
        ensures state { self.new.state ≡ self.old.state }
    {
        match part {
            Part::Enlistment {
                enlistment,
                manager,
                information,
            } => Ok(self.is_new_enlistment(*enlistment, *manager, information.as_slice())),
            Part::Changes(changes) => self.may_wait(transaction, changes.as_slice()),
            Part::Settings(settings) => Ok(self.may_set(transaction, settings.as_slice())),
        }
    }

    // No image has more units than their number tells.
    fn law_of_units(&self)
        ensures { self.now.state.units < 2 ^ 32 }
    {
        let _units = self.units;
    }

    // The transaction, which is ready, has one part more that applies, unless no image has room for it. Where it has not, what waits
    // is forgotten.
    fn add_part(&mut self, transaction: Id, part: Part) -> Result<bool, NoMemory>
        requires ready { may_get_ready self.old.state transaction ≡ true }
        requires applies { part_applies self.old.state transaction part ≡ true }
        ensures added { result ≡ Ok true → self.new.state ≡ with_part self.old.state transaction part }
        ensures refused { result ≡ Ok false → is_within_limits (with_part self.old.state transaction part) ≡ false }
    {
        self.law_of_units();
        hold_changes(
            &mut self.waiting,
            &self.files,
            transaction,
            changes_in(&part),
        )?;
        self.files.give_numbers(changes_in(&part));
        match self
            .transactions
            .add_part(self.alloc, &self.files, transaction, part)
        {
            Ok(true) => Ok(true),
            Ok(false) => {
                forget(self.alloc, &mut self.waiting, &mut self.transactions);
                Ok(false)
            }
            Err(NoMemory) => {
                forget(self.alloc, &mut self.waiting, &mut self.transactions);
                Err(NoMemory)
            }
        }
    }

    // A participant of a transaction is prepared.
    fn get_ready(&mut self, transaction: Id, part: Part) -> Result<bool, NoMemory>
        ensures { IfOk result (λ taken. Takes self.old.state (Ready transaction part) taken self.new.state) }
    {
        if !self.may_get_ready(transaction) || !self.part_applies(transaction, &part)? {
            return Ok(false);
        }
        self.add_part(transaction, part)
    }

    // The transaction, which is ready, waits for this superior, unless no image has room for it. Where it does not, what waits is
    // forgotten.
    fn add_superior(&mut self, transaction: Id, superior: Superior) -> Result<bool, NoMemory>
        requires { may_get_ready self.old.state transaction ≡ true }
        ensures held { result ≡ Ok true → self.new.state ≡ hold_recorded self.old.state transaction superior }
        ensures refused { result ≡ Ok false → is_within_limits (hold_recorded self.old.state transaction superior) ≡ false }
    {
        self.law_of_units();
        match self.transactions.hold(self.alloc, transaction, superior) {
            Ok(true) => Ok(true),
            Ok(false) => {
                forget(self.alloc, &mut self.waiting, &mut self.transactions);
                Ok(false)
            }
            Err(NoMemory) => {
                forget(self.alloc, &mut self.waiting, &mut self.transactions);
                Err(NoMemory)
            }
        }
    }

    // A transaction waits for its superior.
    fn hold(&mut self, transaction: Id, superior: Superior) -> Result<bool, NoMemory>
        ensures { IfOk result (λ taken. Takes self.old.state (Held transaction superior.enlistment superior.manager superior.information) taken self.new.state) }
    {
        if !self.may_get_ready(transaction)
            || !self.is_new_enlistment(
                superior.enlistment,
                superior.manager,
                superior.information.as_slice(),
            )
        {
            return Ok(false);
        }
        self.add_superior(transaction, superior)
    }

    // Commits what waited, and makes room for it before.
    fn commit(&mut self, changes: Vec<Change>, settings: Vec<Setting>) -> Result<bool, NoMemory>
        requires apply { changes_apply self.old.state.tree changes.items ≡ true }
        requires new { list_all (is_new_in self.old.state.tree) changes.items ≡ true }
        requires units { CanAllBeMade self.old.state.tree changes.items }
        requires spared { AreSpared self.old.state.tree self.old.state.transactions changes.items }
        ensures { IfOk result (λ all. (all ≡ true) × (self.new.state ≡ with_committed self.old.state changes.items settings.items)) }
    {
        self.keys.reserve(settings.len())?;
        if !self.make_all(changes)? {
            return Ok(false);
        }
        make_all(&mut self.keys, settings);
        Ok(true)
    }

    // A prepared transaction commits: what waited is made.
    fn decide(&mut self, transaction: Id) -> Result<bool, NoMemory>
        ensures { IfOk result (λ taken. Takes self.old.state (Decide transaction) taken self.new.state) }
    {
        if !self.transactions.may_decide(transaction) {
            return Ok(false);
        }
        let (changes, settings) = self
            .transactions
            .decide(self.alloc, &self.files, transaction);
        release_changes(&mut self.waiting, transaction, &changes);
        self.commit(changes, settings)
    }

    // A prepared transaction rolls back.
    fn undo(&mut self, transaction: Id) -> bool
        ensures { Takes self.old.state (Undo transaction) result self.new.state }
    {
        if !self.transactions.may_undo(transaction) {
            return false;
        }
        self.transactions.forget(&self.files, transaction);
        self.waiting.release(transaction);
        true
    }

    // A participant of a decided transaction is done, which it was not.
    fn finish_part(&mut self, transaction: Id, done: DonePart)
        requires { stage_passes self.old.state transaction (has_undone done) ≡ true }
        ensures { self.new.state ≡ fact_of self.old.state (Done transaction done) }
    {
        self.transactions.finish(&self.files, transaction, done);
    }

    // A participant of a decided transaction is done.
    fn finish(&mut self, transaction: Id, done: DonePart) -> bool
        ensures { Takes self.old.state (Done transaction done) result self.new.state }
    {
        if !self.transactions.may_finish(transaction, done) {
            return false;
        }
        self.finish_part(transaction, done);
        true
    }

    // Makes of the state what an event makes of it, if it applies but for the limits, and does not count it.
    fn take(&mut self, event: Event) -> Result<bool, NoMemory>
        requires { IsPlainlyMade self.old.state.tree event }
        ensures { IfOk result (λ taken. Takes self.old.state event taken self.new.state) }
    {
        match event {
            Event::Boot { boot } => Ok(self.boot(boot)),
            Event::MadeRm { manager } => self.add_manager(manager),
            Event::Plain { change } => self.change_plainly(change),
            Event::Ready { transaction, part } => self.get_ready(transaction, part),
            Event::Single { transaction, part } => self.commit_part(transaction, part),
            Event::Held {
                transaction,
                enlistment,
                manager,
                information,
            } => self.hold(
                transaction,
                Superior {
                    enlistment,
                    manager,
                    information,
                },
            ),
            Event::Decide { transaction } => self.decide(transaction),
            Event::Undo { transaction } => Ok(self.undo(transaction)),
            Event::Done { transaction, done } => Ok(self.finish(transaction, done)),
        }
    }

    // Counts the event that was taken.
    fn count(&mut self)
        requires { nat_lt (self.old.state.events + 1) (2 ^ 63) ≡ true }
        ensures { self.new.state ≡ record self.old.state { events = self.old.state.events + 1 } }
    {
        self.events += 1;
    }

    /// Applies an event over the places of bytes. It answers false where the event does not apply; the state is then of no use, as it
    /// is where memory is wanted.
    pub fn apply(&mut self, event: Event) -> Result<bool, NoMemory>
        requires { IsPlainlyMade self.old.state.tree event }
        ensures applies { IfOk result (λ applied. applied ≡ event_applies self.old.state event) }
        ensures after { result ≡ Ok true → self.new.state ≡ after_event self.old.state event }
    {
        if !self.has_events_left() || !self.take(event)? {
            return Ok(false);
        }
        self.count();
        Ok(self.is_within())
    }

    /// Is every transaction over.
    pub fn has_no_transactions(&self) -> bool
        ensures { result ≡ true → self.now.state.transactions ≡ [] }
    {
        self.transactions().is_empty()
    }

    // A transaction commits alone the settings that lie at a place, up to the one that is answered.
    fn take_settings(
        &mut self,
        transaction: Id,
        bytes: &[u8],
        at: usize,
    ) -> Result<Option<usize>, NoMemory>
        requires { self.old.state.transactions ≡ [] }
        ensures { IfOk result (TakenUpTo bytes.now at transaction self.old.state self.new.state) }
    {
        if transaction.boot != self.boots {
            return Ok(None);
        }
        let Some((count, start)) = u32_at(bytes, at) else {
            return Ok(None);
        };
        if count == 0 {
            return Ok(None);
        }
        make_all_in(self.alloc, &mut self.keys, bytes, start, count)
    }

    /// Applies the event that a transaction commits alone the settings which lie at a place, and gives the place behind them. There is
    /// none where such an event does not apply; the state is then of no use, as it is where memory is wanted.
    pub fn apply_settings(
        &mut self,
        transaction: Id,
        bytes: &[u8],
        at: usize,
    ) -> Result<Option<usize>, NoMemory>
        requires { self.old.state.transactions ≡ [] }
        ensures { IfOk result (CommittedUpTo bytes.now at transaction self.old.state self.new.state) }
    {
        if !self.has_events_left() {
            return Ok(None);
        }
        let Some(end) = self.take_settings(transaction, bytes, at)? else {
            return Ok(None);
        };
        self.count();
        if !self.is_within() {
            return Ok(None);
        }
        Ok(Some(end))
    }

    // Makes of the state what the first event makes of it that a restart has yet to record, if there is one.
    fn finish_first(&mut self) -> bool
        requires events { self.old.state.events + length (flat_map own_events self.old.state.transactions) < 2 ^ 63 }
        ensures more { result ≡ true → length (flat_map own_events self.new.state.transactions) + 1 ≡ length (flat_map own_events self.old.state.transactions) }
        ensures none { result ≡ false → flat_map own_events self.new.state.transactions ≡ [] }
        ensures after { after_events self.new.state (flat_map own_events self.new.state.transactions) ≡ after_events self.old.state (flat_map own_events self.old.state.transactions) }
        ensures events { self.new.state.events + length (flat_map own_events self.new.state.transactions) ≡ self.old.state.events + length (flat_map own_events self.old.state.transactions) }
    {
        let Some((transaction, done)) = first_own(self.transactions.as_slice()) else {
            return false;
        };
        self.finish_part(transaction, done);
        self.count();
        true
    }

    /// Makes of the state what the group of a restart makes of it.
    pub fn begin(&mut self)
        requires boots { self.old.state.boots + 1 < 2 ^ 32 }
        requires events { self.old.state.events + length (own_group self.old.state) < 2 ^ 63 }
        ensures { self.new.state ≡ after_events self.old.state (own_group self.old.state) }
    {
        self.start(self.boots + 1);
        self.count();
        while self.finish_first() {}
    }
}
