// What each undecided transaction has set.
ghost use Rattle.std.specs.Prelude.{◌≡◌, ◌++◌, ◌∷◌, ℕ, List, [], MatchOption, IfOk, OnOk, OnErr, true, false};
ghost use Rattle.std.specs.Option.{option_copied, option_map};
ghost use Rattle.ktm_keyed.specs.Keyed.{is_rising, value_at, put};
ghost use Rattle.ktm_world.specs.KeyCalls.{with_setting};
ghost use Rattle.ktm_world.specs.Keys.{Own, OwnSettings, Store, own_settings, with_own, without_own, is_held_by_other, store_seen, stored_all};
ghost use Rattle.ktm_keyed.specs.Slot.{IsSlot};
ghost use Rattle.ktm_world.specs.Transactions.{same_id};
ghost use Rattle.kv_rm.specs.Count.{kind_of};
ghost use Rattle.kv_rm.specs.Participant.{has_own};
ghost use Rattle.kv_rm.specs.Place.{IsPlace, IsAbsent, IsSeat, IsSeatOf};

use crate::count::{Kind, kind_of};
use crate::held::hash_of;
use crate::setting_list::SettingList;
use ktm_base::{Bytes, Id, NoMemory, Text};
use ktm_keyed::Slot;
use ktm_places::{Entry, Places};
use ktm_world::Setting;
use std::alloc::Global;
use std::marker::Model;

/// A transaction and its own settings.
#[derive(Drop)]
pub struct OwnKeys {
    transaction: Id,
    settings: SettingList,
    stamp: u64,
}

impl Model for OwnKeys {
    ghost use Rattle.ktm_world.specs.Keys.{Own};

    ghost Value = { Own };

    ghost view = { λ o. record { transaction = o.transaction; settings = o.settings } };
}

impl Entry for OwnKeys {
    ghost owner = { λ o. o.transaction };

    fn transaction(&self) -> Id {
        self.transaction
    }

    fn stamp(&self) -> u64 {
        self.stamp
    }
}

/// Where a setting of a transaction's goes.
#[derive(Clone, Copy)]
pub struct Seat {
    /// Where the transaction's own settings are, if it has any.
    pub place: Option<usize>,
    /// Where the key stands among them.
    pub slot: Slot,
    /// What the transaction has done with the key.
    pub was: Option<Kind>,
    /// The hash of the key.
    pub hash: usize,
}

impl OwnKeys {
    // Are they of this transaction.
    fn is_of(&self, transaction: Id) -> bool
        ensures { result ≡ same_id self.now.transaction transaction }
    {
        self.transaction == transaction
    }

    // By rising key.
    fn settings(&self) -> &[Setting]
        ensures settings { result.now ≡ self.now.settings }
        ensures rising { is_rising result.now ≡ true }
    {
        self.settings.as_slice()
    }

    // Gives them, by rising key.
    fn into_settings(self) -> Vec<Setting>
        ensures { result.items ≡ self.settings }
    {
        let OwnKeys { settings, .. } = self;
        settings.into_vec()
    }

    // What the key is set to.
    fn get(&self, key: &[u8]) -> Option<&Option<Bytes>>
        ensures { option_copied result ≡ value_at self.now.settings key.now }
    {
        self.settings.get(key)
    }

    // Where a key stands, or would stand.
    fn slot(&self, key: &[u8]) -> Slot
        ensures { IsSlot self.now.settings key.now result }
    {
        self.settings.slot(key)
    }

    // What is done with the key that stands there.
    fn kind_in(&self, slot: Slot) -> Option<Kind>
        ensures { (key : List ℕ) → IsSlot self.now.settings key slot → result ≡ option_map kind_of (value_at self.now.settings key) }
    {
        match self.settings.value_in(slot) {
            Some(value) => Some(kind_of(value)),
            None => None,
        }
    }

    // One setting more where its key stands, or in place of the one there.
    fn set_in(
        &mut self,
        alloc: Global,
        slot: Slot,
        key: Text,
        value: Option<Bytes>,
    ) -> Result<(), NoMemory>
        requires { IsSlot self.old.settings key slot }
        ensures ok { OnOk result (self.new ≡ record self.old { settings = put self.old.settings key value }) }
        ensures err { OnErr result (self.new ≡ self.old) }
        ensures transaction { self.new.transaction ≡ self.old.transaction }
    {
        self.settings.put_in(alloc, slot, key, value)
    }
}

/// The own settings of each undecided transaction that has any, in the order in which each first had one.
#[derive(Drop)]
pub struct OwnList {
    entries: Vec<OwnKeys>,
    places: Places,
}

impl Model for OwnList {
    ghost use Rattle.std.specs.Prelude.{List, map};
    ghost use Rattle.ktm_places.specs.Places.{AreCounted};
    ghost use Rattle.ktm_world.specs.Keys.{Own};

    ghost Value = { List Own };

    ghost view = { λ l. l.entries.items };

    ghost invariant = { λ l. AreCounted (map (λ own. own.transaction) l.entries.items) l.places };
}

impl OwnList {
    /// Of no transaction.
    pub fn new(alloc: Global) -> Self
        ensures { result ≡ [] }
    {
        OwnList {
            entries: Vec::new(alloc),
            places: Places::new(alloc),
        }
    }

    // Where a transaction's own settings are.
    fn place_of(&self, transaction: Id) -> Option<usize>
        ensures { MatchOption result (IsAbsent self.now transaction) (IsPlace self.now transaction) }
    {
        self.places.place_of(&self.entries, transaction)
    }

    /// Has the transaction settings of its own.
    pub fn has(&self, transaction: Id) -> bool
        ensures { result ≡ has_own self.now transaction }
    {
        match self.place_of(transaction) {
            Some(_) => true,
            None => false,
        }
    }

    /// The settings of a transaction, by rising key; none where it has set nothing.
    pub fn settings_of(&self, transaction: Id) -> &[Setting]
        ensures settings { result.now ≡ own_settings self.now transaction }
        ensures rising { is_rising result.now ≡ true }
    {
        match self.place_of(transaction) {
            Some(place) => self.entries[place].settings(),
            None => &[],
        }
    }

    /// The settings through which the store is seen.
    pub fn settings_before(&self, who: Option<Id>) -> &[Setting]
        ensures seen { (store : Store) → store_seen (record { store = store; own = self.now }) who ≡ stored_all store result.now }
        ensures rising { is_rising result.now ≡ true }
    {
        match who {
            Some(transaction) => self.settings_of(transaction),
            None => &[],
        }
    }

    /// The settings of the transaction that came last.
    pub fn last_settings(&self) -> &[Setting]
        ensures { (own : List Own) (last : Own) → self.now ≡ own ++ last ∷ [] → result.now ≡ last.settings }
    {
        match self.entries.last() {
            Some(last) => last.settings(),
            None => &[],
        }
    }

    /// What a transaction has set the key to.
    pub fn value(&self, transaction: Id, key: &[u8]) -> Option<&Option<Bytes>>
        ensures { option_copied result ≡ value_at (own_settings self.now transaction) key.now }
    {
        match self.place_of(transaction) {
            Some(place) => self.entries[place].get(key),
            None => None,
        }
    }

    /// Where a setting of the transaction's under this key goes.
    pub fn seat(&self, transaction: Id, key: &[u8]) -> Seat
        ensures { IsSeat self.now transaction key.now result }
    {
        let place = self.place_of(transaction);
        let hash = hash_of(key);
        match place {
            Some(i) => {
                let slot = self.entries[i].slot(key);
                let was = self.entries[i].kind_in(slot);
                Seat {
                    place,
                    slot,
                    was,
                    hash,
                }
            }
            None => Seat {
                place,
                slot: Slot::Free(0),
                was: None,
                hash,
            },
        }
    }

    /// Has another transaction set or unset the key. It asks each.
    pub fn is_held(&self, transaction: Id, key: &[u8]) -> bool
        ensures { result ≡ is_held_by_other self.now transaction key.now }
    {
        is_held(&self.entries, transaction, key)
    }

    /// The transaction has these settings of its own from now on, behind those of the others. It may have had some.
    pub fn push(
        &mut self,
        transaction: Id,
        settings: SettingList,
        had: bool,
    ) -> Result<(), NoMemory>
        requires { had ≡ false → has_own self.old transaction ≡ false }
        ensures ok { OnOk result (self.new ≡ self.old ++ record { transaction = transaction; settings = settings } ∷ []) }
        ensures err { OnErr result (self.new ≡ self.old) }
    {
        self.places.reserve()?;
        let stamp = self.places.next_stamp();
        self.entries.push(OwnKeys {
            transaction,
            settings,
            stamp,
        })?;
        self.places.add(transaction, had);
        Ok(())
    }

    // One setting more where it goes, or in place of the one there.
    fn set_at(
        &mut self,
        alloc: Global,
        transaction: Id,
        seat: Seat,
        key: Text,
        value: Option<Bytes>,
    ) -> Result<(), NoMemory>
        requires { IsSeat self.old transaction key seat }
        ensures ok { OnOk result (self.new ≡ with_own self.old transaction key value) }
        ensures err { OnErr result (self.new ≡ self.old) }
    {
        match seat.place {
            Some(place) => {
                let own = &mut self.entries[place];
                own.set_in(alloc, seat.slot, key, value)
            }
            None => self.push(transaction, one_setting(alloc, key, value)?, false),
        }
    }

    /// One setting more for a transaction. One for none is not kept.
    pub fn set_for(
        &mut self,
        alloc: Global,
        who: Option<Id>,
        seat: Option<Seat>,
        key: Text,
        value: Option<Bytes>,
    ) -> Result<(), NoMemory>
        requires { IsSeatOf self.old who key seat }
        ensures ok { OnOk result (self.new ≡ with_setting self.old who key value) }
        ensures err { OnErr result (self.new ≡ self.old) }
    {
        match (who, seat) {
            (Some(transaction), Some(seat)) => self.set_at(alloc, transaction, seat, key, value),
            _ => Ok(()),
        }
    }

    /// Takes a transaction's own settings out.
    pub fn take(&mut self, alloc: Global, transaction: Id) -> Vec<Setting>
        ensures settings { result.items ≡ own_settings self.old transaction }
        ensures own { self.new ≡ without_own self.old transaction }
    {
        match self.place_of(transaction) {
            Some(place) => {
                let own = self.entries.remove(place);
                self.places.remove(transaction, own.stamp());
                own.into_settings()
            }
            None => Vec::new(alloc),
        }
    }
}

// This setting alone.
fn one_setting(alloc: Global, key: Text, value: Option<Bytes>) -> Result<SettingList, NoMemory>
    ensures { IfOk result (λ settings. settings ≡ put [] key value) }
{
    let mut settings = SettingList::new(alloc);
    settings.put(alloc, key, value)?;
    Ok(settings)
}

// Has another transaction set or unset the key.
fn is_held(entries: &[OwnKeys], transaction: Id, key: &[u8]) -> bool
    ensures { result ≡ is_held_by_other entries.now transaction key.now }
{
    for own in entries {
        if !own.is_of(transaction) && own.get(key).is_some() {
            return true;
        }
    }
    false
}
