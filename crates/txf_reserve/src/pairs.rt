// Which transactions hold which keys.
ghost use Rattle.std.specs.Prelude.{◌≡◌, ℕ, List, ◌+◌, ◌<◌, ◌≤◌, ◌++◌, ◌∷◌, ◌&&◌, ◌||◌, not, [], length, IfNone, IfSome, IsOk, OnOk, None, is_some, true, false};
ghost use Rattle.std.specs.List.{list_any};
ghost use Rattle.ktm_base.specs.declared.id.Id.{Id};
ghost use Rattle.ktm_world.specs.Transactions.{is_of, same_id};
ghost use Rattle.ktm_links.specs.Mapped.{at, Begins, IsNoneOf};
ghost use Rattle.txf_reserve.specs.HeldPairs.{has_pair, is_of_other, is_pair, HasNoHolder, IsHolder};

use crate::name::{PairName, id_bytes, key_bytes, key_name, owner_name};
use ktm_base::{Id, NoMemory};
use ktm_links::{Chains, Name};
use std::alloc::Global;
use std::marker::Model;

/// A set of pairs of a key and a transaction that holds it. A name has room for a key of eleven bytes fewer.
#[derive(Drop)]
pub(crate) struct Pairs<K: PairName> {
    // Each pair by its key, with its transaction, and by its transaction.
    by_key: Chains<K, Id>,
    by_owner: Chains<K, ()>,
}

impl<K: PairName> Model for Pairs<K> {
    ghost use Rattle.std.specs.Prelude.{min};
    ghost use Rattle.txf_reserve.specs.HeldPairs.{PairSet};

    ghost Value = { PairSet };

    ghost use Rattle.txf_reserve.specs.HeldPairs.{pairs_of, ArePairs};

    ghost view = { λ p. record {
      pairs = pairs_of p.by_owner.entries;
      spare = min p.by_key.spare p.by_owner.spare;
    } };

    ghost invariant = { λ p. ArePairs K.room p.by_key.entries p.by_owner.entries };
}

// Is it the caller's transaction.
fn is_of(id: Id, who: Option<Id>) -> bool
    ensures { result ≡ is_of id who }
{
    match who {
        Some(other) => id == other,
        None => false,
    }
}

// The transaction under the first name from this one on, if that begins so.
fn holder_from<K: Name>(map: &Chains<K, Id>, prefix: &[u8], from: &[u8]) -> Option<Id>
    requires { Begins prefix.now from.now }
    ensures some { IfSome result (IsHolder prefix.now from.now map.now.entries) }
    ensures none { IfNone result (HasNoHolder prefix.now from.now map.now.entries) }
{
    let Some(own) = map.first_from(from) else {
        return None;
    };
    let Some(name) = map.name(own) else {
        unreachable!();
    };
    if !name.starts_with(prefix) {
        return None;
    }
    map.get(own).copied()
}

// A copy of the first name that begins so.
fn first_name<K: PairName>(map: &Chains<K, ()>, prefix: &[u8]) -> Option<K>
    requires { (q : List ℕ) → is_some (at map.now.entries q) ≡ true → length q ≤ K.room }
    ensures begins { IfSome result (λ name. Begins prefix.now (K.bytes name)) }
    ensures there { IfSome result (λ name. is_some (at map.now.entries (K.bytes name)) ≡ true) }
    ensures none { IfNone result (IsNoneOf (Begins prefix.now) map.now.entries) }
{
    let Some(own) = map.first_with(prefix) else {
        return None;
    };
    let Some(name) = map.name(own) else {
        unreachable!();
    };
    Some(K::copied(name))
}

impl<K: PairName> Pairs<K> {
    /// No pairs.
    pub(crate) fn new(alloc: Global) -> Self
        ensures { result.pairs ≡ [] }
    {
        Pairs {
            by_key: Chains::new(alloc),
            by_owner: Chains::new(alloc),
        }
    }

    /// How many pairs can come without memory.
    pub(crate) fn spare(&self) -> usize
        ensures { result ≡ self.now.spare }
    {
        self.by_key.spare().min(self.by_owner.spare())
    }

    /// Makes room for so many more pairs.
    pub(crate) fn reserve(&mut self, n: usize) -> Result<(), NoMemory>
        ensures room { OnOk result (n ≤ self.new.spare) }
        ensures enough { n ≤ self.old.spare → IsOk result }
        ensures pairs { self.new.pairs ≡ self.old.pairs }
        ensures spare { self.old.spare ≤ self.new.spare }
    {
        if let Err(NoMemory) = self.by_key.reserve(n) {
            return Err(NoMemory);
        }
        if let Err(NoMemory) = self.by_owner.reserve(n) {
            return Err(NoMemory);
        }
        Ok(())
    }

    // Does the transaction hold the key.
    fn has(&self, key: &[u8], transaction: Id) -> bool
        requires fits { length key.now + 11 ≤ K.room }
        requires short { length key.now ≤ 263 }
        ensures { result ≡ has_pair self.now.pairs key.now transaction }
    {
        let name: K = owner_name(transaction, key);
        self.by_owner.find(name.as_slice()).is_some()
    }

    /// The transaction holds the key from now on. It takes no memory.
    pub(crate) fn insert(&mut self, key: &[u8], transaction: Id)
        requires spare { 0 < self.old.spare }
        requires fits { length key.now + 11 ≤ K.room }
        requires short { length key.now ≤ 263 }
        ensures pairs { (k : List ℕ) (id : Id) → has_pair self.new.pairs k id ≡ (has_pair self.old.pairs k id || is_pair k id (record { key = key.now; transaction = transaction })) }
        ensures spare { self.old.spare ≤ self.new.spare + 1 }
    {
        if self.has(key, transaction) {
            return;
        }
        self.by_key
            .insert(key_name(key, transaction, &[]), transaction);
        self.by_owner.insert(owner_name(transaction, key), ());
    }

    /// Does a transaction other than this one hold the key.
    pub(crate) fn is_held_by_other(&self, key: &[u8], who: Option<Id>) -> bool
        requires fits { length key.now + 11 ≤ K.room }
        requires short { length key.now ≤ 263 }
        ensures { result ≡ list_any (is_of_other key.now who) self.now.pairs }
    {
        let prefix: K = key_bytes(key);
        let prefix = prefix.as_slice();
        let Some(first) = holder_from(&self.by_key, prefix, prefix) else {
            return false;
        };
        if !is_of(first, who) {
            return true;
        }
        let behind: K = key_name(key, first, &[0]);
        holder_from(&self.by_key, prefix, behind.as_slice()).is_some()
    }

    // The transaction holds one key less, if it holds any.
    fn remove_next(&mut self, transaction: Id) -> bool
        ensures fewer { result ≡ true → length self.new.pairs < length self.old.pairs }
        ensures none { result ≡ false → (k : List ℕ) → has_pair self.new.pairs k transaction ≡ false }
        ensures others { (k : List ℕ) (id : Id) → same_id id transaction ≡ false → has_pair self.new.pairs k id ≡ has_pair self.old.pairs k id }
        ensures spare { self.old.spare ≤ self.new.spare }
    {
        let Some(owner) = first_name(&self.by_owner, &id_bytes(transaction)) else {
            return false;
        };
        let owner = owner.as_slice();
        let name: K = key_name(&owner[8..], transaction, &[]);
        self.by_key.remove(name.as_slice());
        self.by_owner.remove(owner);
        true
    }

    /// The transaction holds nothing from now on.
    pub(crate) fn remove_all(&mut self, transaction: Id)
        ensures pairs { (k : List ℕ) (id : Id) → has_pair self.new.pairs k id ≡ (has_pair self.old.pairs k id && not (same_id id transaction)) }
        ensures spare { self.old.spare ≤ self.new.spare }
    {
        while self.remove_next(transaction) {}
    }
}
