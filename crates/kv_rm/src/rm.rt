// The manager.
ghost use Rattle.std.specs.Prelude.{◌≡◌, ◌+◌, ◌^◌, ◌<◌, ℕ, List, [], ◌∷◌, ◌++◌, Option, IfOk, OnOk, OnErr, IsOk, count_by, is_none, length, nat_lt, true, MatchOption, ⊤};
ghost use Rattle.std.specs.Option.{option_copied};
ghost use Rattle.ktm_base.specs.declared.id.Id.{Id};
ghost use Rattle.ktm_world.specs.declared.reply.Reply.TheVariants.{Done};
ghost use Rattle.ktm_world.specs.KeyCalls.{KeyRoom, is_key_held, keys_with, with_setting};
ghost use Rattle.ktm_keyed.specs.Keyed.{is_rising};
ghost use Rattle.ktm_world.specs.Keys.{changes_pending, keys_used, Own, own_settings, without_own, value_seen, stored_all, store_seen, keys_of};
ghost use Rattle.ktm_world.specs.Phases.{has_settings};
ghost use Rattle.kv_rm.specs.Calls.{is_refused, key_outcome};
ghost use Rattle.kv_rm.specs.Count.{is_of_kind, kind_of, AreCounts, AreFew};
ghost use Rattle.kv_rm.specs.Held.{AreHeld, count_at, hash_count};
ghost use Rattle.kv_rm.specs.Participant.{has_own};
ghost use Rattle.kv_rm.specs.Place.{IsSeatOf, one_more};
ghost use Rattle.kv_rm.specs.Restored.{keys_restored};
ghost use Rattle.kv_rm.specs.declared.call.KvCall.TheVariants.{Get, Set, Unset};
ghost use Rattle.kv_rm.specs.declared.count.Kind.{Kind};

use crate::call::{KvCall, Room};
use crate::count::{Counts, Kind};
use crate::held::HeldKeys;
use crate::list::keys_with;
use crate::make::make_all;
use crate::own::{OwnList, Seat};
use crate::setting_list::SettingList;
use ktm_base::{Bytes, Id, NoMemory, Refusal, Text, TextList};
use ktm_counted::Steps;
use ktm_keyed::KeyedList;
use ktm_world::{Entry, Reply, Setting, is_bad_key, is_bad_value};
use std::alloc::Global;
use std::marker::Model;
use std::sync::ledger::Ledger;

// Where a setting goes, if it is for a transaction, and the counts once it is made.
#[derive(Clone, Copy)]
struct Plan {
    seat: Option<Seat>,
    counts: Counts,
}

/// The store of committed keys, with what each undecided transaction has set or unset. The store has room for all that may be
/// committed.
#[derive(Drop)]
pub struct KvRm {
    alloc: Global,
    store: KeyedList<Bytes>,
    own: OwnList,
    // Of what the transactions have set. The store has room for as many more entries.
    counts: Counts,
    // How many settings have each hash of a key.
    held: HeldKeys,
}

impl Model for KvRm {
    ghost use Rattle.std.specs.Prelude.{◌+◌, ◌≤◌};
    ghost use Rattle.ktm_world.specs.Keys.{KeysNow};
    ghost use Rattle.kv_rm.specs.Count.{AreCounts, AreFew};
    ghost use Rattle.kv_rm.specs.Held.{AreHeld};

    ghost Value = { KeysNow };

    ghost view = { λ k. record { store = k.store.items; own = k.own } };

    ghost invariant = { λ k. record {
      counted : AreCounts k.own k.counts;
      few : AreFew k.counts;
      held : AreHeld k.own k.held.counts.items;
      room : k.counts.values + k.counts.unsets ≤ k.store.spare;
    } };
}

// Is the key unset, after what a transaction has done with it, or as it is committed.
fn is_unset(store: &KeyedList<Bytes>, seat: Option<Seat>, key: &Text) -> bool
    ensures { (own : List Own) (who : Option Id) → IsSeatOf own who key.now seat → result ≡ is_none (value_seen (record { store = store.now.items; own = own }) who key.now) }
{
    match seat {
        Some(
            Seat {
                was: Some(Kind::Value),
                ..
            },
        ) => false,
        Some(
            Seat {
                was: Some(Kind::Unset),
                ..
            },
        ) => true,
        _ => store.get(key.as_slice()).is_none(),
    }
}

// A setting is made in its seat: its key is counted, where it was not set.
fn count_key(held: &mut HeldKeys, seat: Option<Seat>)
    requires within { MatchOption seat ⊤ (λ seat. seat.hash < length held.old.counts.items) }
    requires few { (hash : ℕ) → count_at held.old.counts.items hash < 2 ^ 33 }
    ensures { (hash : ℕ) → count_at held.new.counts.items hash ≡ count_at held.old.counts.items hash + one_more seat hash }
{
    if let Some(
        Seat {
            was: None,
            hash,
            ..
        },
    ) = seat
    {
        held.more(hash);
    }
}

// A transaction has these settings of its own from now on, behind those of the others. They are counted by the hashes of keys.
fn push_own(
    own: &mut OwnList,
    held: &mut HeldKeys,
    transaction: Id,
    settings: Vec<Setting>,
) -> Result<(), NoMemory>
    requires rising { is_rising settings.items ≡ true }
    requires held { AreHeld own.old held.old.counts.items }
    requires few { (hash : ℕ) → hash_count hash (own.old ++ record { transaction = transaction; settings = settings.items } ∷ []) < 2 ^ 33 }
    ensures ok { OnOk result (own.new ≡ own.old ++ record { transaction = transaction; settings = settings.items } ∷ []) }
    ensures err { OnErr result (own.new ≡ own.old) }
    ensures held { AreHeld own.new held.new.counts.items }
{
    held.reserve()?;
    let had = own.has(transaction);
    own.push(transaction, SettingList::from_vec(settings), had)?;
    held.add_all(own.last_settings());
    Ok(())
}

// Takes out what a transaction has set, which is counted no more.
fn take(
    alloc: Global,
    own: &mut OwnList,
    counts: &mut Counts,
    held: &mut HeldKeys,
    transaction: Id,
) -> Vec<Setting>
    requires counted { AreCounts own.old counts.old }
    requires held { AreHeld own.old held.old.counts.items }
    ensures settings { result.items ≡ own_settings own.old transaction }
    ensures own { own.new ≡ without_own own.old transaction }
    ensures counted { AreCounts own.new counts.new }
    ensures held { AreHeld own.new held.new.counts.items }
    ensures values { counts.new.values + count_by (is_of_kind Kind.Value) result.items ≡ counts.old.values }
    ensures unsets { counts.new.unsets + count_by (is_of_kind Kind.Unset) result.items ≡ counts.old.unsets }
{
    let settings = own.take(alloc, transaction);
    *counts = counts.less(&settings);
    held.remove_all(&settings);
    settings
}

impl KvRm {
    /// With these committed keys.
    pub fn with_store(alloc: Global, store: KeyedList<Bytes>) -> Self
        ensures { result ≡ record { store = store.items; own = [] } }
    {
        KvRm {
            alloc,
            store,
            own: OwnList::new(alloc),
            counts: Counts {
                values: 0,
                unsets: 0,
            },
            held: HeldKeys::new(alloc),
        }
    }

    /// The transaction has these settings of its own from now on, behind those of the others: it is brought back by a restart.
    /// The store has room for them then. Out of memory nothing has changed.
    pub fn restore(&mut self, transaction: Id, settings: Vec<Setting>) -> Result<(), NoMemory>
        requires rising { is_rising settings.items ≡ true }
        requires few_values { keys_used (keys_restored self.old transaction settings.items) < 2 ^ 32 }
        requires few_unsets { changes_pending (keys_restored self.old transaction settings.items) < 2 ^ 32 }
        ensures ok { OnOk result (self.new ≡ keys_restored self.old transaction settings.items) }
        ensures err { OnErr result (self.new ≡ self.old) }
    {
        let counts = self.counts.more(&settings);
        self.store.reserve(counts.all())?;
        push_own(&mut self.own, &mut self.held, transaction, settings)?;
        self.counts = counts;
        Ok(())
    }

    /// Makes a call for a transaction, or for none: it is refused, or answered. What is set or unset has room in the store then.
    /// Out of memory nothing has changed; a call that is refused takes none.
    pub fn call(&mut self, who: Option<Id>, call: KvCall, room: Room) -> Result<Reply, NoMemory>
        ensures reply { IfOk result (λ reply. reply ≡ (key_outcome self.old room who call).reply) }
        ensures keys { OnOk result (self.new ≡ record self.old { own = (key_outcome self.old room who call).own }) }
        ensures no_memory { OnErr result (self.new ≡ self.old) }
        ensures enough { is_refused (key_outcome self.old room who call).reply ≡ true → IsOk result }
    {
        match call {
            KvCall::Set { key, value } => self.set(who, key, value, room.keys),
            KvCall::Unset { key } => self.unset(who, key, room.changes),
            KvCall::Get { key } => self.get(who, &key),
            KvCall::List => Ok(Reply::Keys(self.keys_seen(who)?)),
        }
    }

    // What is seen of a key.
    fn value_seen(&self, who: Option<Id>, key: &[u8]) -> Option<&Bytes>
        ensures { option_copied result ≡ value_seen self.now who key.now }
    {
        if let Some(transaction) = who {
            if let Some(setting) = self.own.value(transaction, key) {
                return setting.as_ref();
            }
        }
        self.store.get(key)
    }

    fn get(&self, who: Option<Id>, key: &Text) -> Result<Reply, NoMemory>
        ensures enough { (room : KeyRoom) → is_refused (key_outcome self.now room who (Get key.now)).reply ≡ true → IsOk result }
        ensures reply { (room : KeyRoom) → IfOk result (λ reply. reply ≡ (key_outcome self.now room who (Get key.now)).reply) }
    {
        if is_bad_key(key) {
            return Ok(Reply::Refused(Refusal::InvalidParameter));
        }
        match self.value_seen(who, key.as_slice()) {
            Some(value) => Ok(Reply::Contents(value.copy(self.alloc)?)),
            None => Ok(Reply::Refused(Refusal::NotFound)),
        }
    }

    // The keys that are seen, by rising key.
    fn keys_seen(&self, who: Option<Id>) -> Result<TextList, NoMemory>
        ensures { IfOk result (λ keys. keys ≡ keys_of (store_seen self.now who)) }
    {
        let settings = self.own.settings_before(who);
        keys_with(self.alloc, self.store.as_slice(), settings)
    }

    // Where a setting of this kind goes, and the counts once it is made. One for no transaction goes nowhere.
    fn plan(&self, who: Option<Id>, key: &Text, kind: Kind) -> Plan
        ensures seat { IsSeatOf self.now.own who key.now result.seat }
        ensures counts { (value : Option (List ℕ)) → kind_of value ≡ kind → AreCounts (with_setting self.now.own who key.now value) result.counts }
        ensures few_values { kind ≡ Kind.Unset → result.counts.values < 2 ^ 32 }
        ensures few_unsets { kind ≡ Kind.Value → result.counts.unsets < 2 ^ 32 }
    {
        match who {
            Some(transaction) => {
                let seat = self.own.seat(transaction, key.as_slice());
                Plan {
                    seat: Some(seat),
                    counts: self.counts.with(seat.was, kind),
                }
            }
            None => Plan {
                seat: None,
                counts: self.counts,
            },
        }
    }

    // Does another undecided transaction hold the key, whose seat this is. Where no more settings have its hash than the caller's
    // own one, no other is asked.
    fn is_held(&self, who: Option<Id>, seat: Option<Seat>, key: &Text) -> bool
        requires { IsSeatOf self.now.own who key.now seat }
        ensures { result ≡ is_key_held self.now.own who key.now }
    {
        match (who, seat) {
            (Some(transaction), Some(seat)) => {
                self.held.has_others(seat.hash, seat.was.is_some())
                    && self.own.is_held(transaction, key.as_slice())
            }
            _ => false,
        }
    }

    // Would so many keys be too many, beside the committed ones.
    fn is_full_with(&self, values: usize, most: u32) -> bool
        ensures { result ≡ nat_lt most (length self.now.store + values) }
    {
        self.store.len().saturating_add(values) > most as usize
    }

    // One setting more, as it was planned, with room for it in the store.
    fn add(
        &mut self,
        who: Option<Id>,
        plan: Plan,
        key: Text,
        value: Option<Bytes>,
    ) -> Result<Reply, NoMemory>
        requires seat { IsSeatOf self.old.own who key plan.seat }
        requires counts { AreCounts (with_setting self.old.own who key value) plan.counts }
        requires few { AreFew plan.counts }
        ensures reply { IfOk result (λ reply. reply ≡ Done) }
        ensures ok { OnOk result (self.new ≡ keys_with self.old who key value) }
        ensures err { OnErr result (self.new ≡ self.old) }
    {
        self.store.reserve(plan.counts.all())?;
        self.held.reserve()?;
        self.own.set_for(self.alloc, who, plan.seat, key, value)?;
        self.counts = plan.counts;
        count_key(&mut self.held, plan.seat);
        Ok(Reply::Done)
    }

    fn set(
        &mut self,
        who: Option<Id>,
        key: Text,
        value: Bytes,
        most: u32,
    ) -> Result<Reply, NoMemory>
        ensures reply { (changes : ℕ) → IfOk result (λ reply. reply ≡ (key_outcome self.old (record { keys = most; changes = changes }) who (Set key value)).reply) }
        ensures keys { (changes : ℕ) → OnOk result (self.new ≡ record self.old { own = (key_outcome self.old (record { keys = most; changes = changes }) who (Set key value)).own }) }
        ensures no_memory { OnErr result (self.new ≡ self.old) }
        ensures enough { (changes : ℕ) → is_refused (key_outcome self.old (record { keys = most; changes = changes }) who (Set key value)).reply ≡ true → IsOk result }
    {
        if is_bad_key(&key) || is_bad_value(&value) {
            return Ok(Reply::Refused(Refusal::InvalidParameter));
        }
        let plan = self.plan(who, &key, Kind::Value);
        if self.is_held(who, plan.seat, &key) {
            return Ok(Reply::Refused(Refusal::TransactionalConflict));
        }
        if self.is_full_with(plan.counts.values, most) {
            return Ok(Reply::Refused(Refusal::DiskFull));
        }
        self.add(who, plan, key, Some(value))
    }

    fn unset(&mut self, who: Option<Id>, key: Text, most: u32) -> Result<Reply, NoMemory>
        ensures reply { (keys : ℕ) → IfOk result (λ reply. reply ≡ (key_outcome self.old (record { keys = keys; changes = most }) who (Unset key)).reply) }
        ensures keys { (keys : ℕ) → OnOk result (self.new ≡ record self.old { own = (key_outcome self.old (record { keys = keys; changes = most }) who (Unset key)).own }) }
        ensures no_memory { OnErr result (self.new ≡ self.old) }
        ensures enough { (keys : ℕ) → is_refused (key_outcome self.old (record { keys = keys; changes = most }) who (Unset key)).reply ≡ true → IsOk result }
    {
        if is_bad_key(&key) {
            return Ok(Reply::Refused(Refusal::InvalidParameter));
        }
        let plan = self.plan(who, &key, Kind::Unset);
        if is_unset(&self.store, plan.seat, &key) {
            return Ok(Reply::Refused(Refusal::NotFound));
        }
        if self.is_held(who, plan.seat, &key) {
            return Ok(Reply::Refused(Refusal::TransactionalConflict));
        }
        if plan.counts.unsets > most as usize {
            return Ok(Reply::Refused(Refusal::NotEnoughQuota));
        }
        self.add(who, plan, key, None)
    }

    /// The committed keys with their values, by rising key.
    pub fn store(&self) -> &[Entry]
        ensures { result.now ≡ self.now.store }
    {
        self.store.as_slice()
    }

    /// In the order in which a commit makes them.
    pub fn own_settings(&self, transaction: Id) -> &[Setting]
        ensures { result.now ≡ own_settings self.now.own transaction }
    {
        self.own.settings_of(transaction)
    }

    /// Has the transaction set or unset a key.
    pub fn has_settings(&self, transaction: Id) -> bool
        ensures { result ≡ has_settings (own_settings self.now.own transaction) }
    {
        !self.own.settings_of(transaction).is_empty()
    }

    /// How many keys all transactions together have unset.
    pub fn unset_count(&self) -> u32
        ensures { result ≡ changes_pending self.now }
    {
        self.counts.unsets as u32
    }

    // Has the transaction settings of its own.
    pub(crate) fn has_own(&self, transaction: Id) -> bool
        ensures { result ≡ has_own self.now.own transaction }
    {
        self.own.has(transaction)
    }

    // Makes the transaction's settings in the store, in order. It takes no memory. Each setting is a step.
    pub(crate) fn commit_own<L: Ledger>(&mut self, transaction: Id, steps: &mut Steps<L>)
        ensures keys { self.new ≡ record { store = stored_all self.old.store (own_settings self.old.own transaction); own = without_own self.old.own transaction } }
        ensures counted { steps.new ≡ steps.old + length (own_settings self.old.own transaction) }
    {
        let settings = take(
            self.alloc,
            &mut self.own,
            &mut self.counts,
            &mut self.held,
            transaction,
        );
        make_all(&mut self.store, settings, steps);
    }

    // Forgets what the transaction has set.
    pub(crate) fn forget_own(&mut self, transaction: Id)
        ensures { self.new ≡ record self.old { own = without_own self.old.own transaction } }
    {
        let _ = take(
            self.alloc,
            &mut self.own,
            &mut self.counts,
            &mut self.held,
            transaction,
        );
    }
}
