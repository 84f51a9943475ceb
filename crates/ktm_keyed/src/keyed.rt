//! Lists of values under keys, by rising key.
ghost use Rattle.std.specs.Prelude.{◌≡◌, ◌+◌, ◌<◌, ◌≤◌, [], true, OnOk, OnErr, IsOk, ℕ, List, length};
ghost use Rattle.std.specs.List.Sorted.{IsBinarySearchResult, IsSearchInRange};
ghost use Rattle.std.specs.Option.{option_copied};
ghost use Rattle.ktm_keyed.specs.Keyed.{comes_before, comes_first, is_rising, key_order, value_at, put, without};
ghost use Rattle.ktm_keyed.specs.Slot.{IsSlot};

use ktm_base::{NoMemory, Text, compare};
use std::alloc::Global;
use std::marker::Model;

/// A value under a key.
#[derive(Clone, Debug, Drop)]
pub struct Keyed<V> {
    pub key: Text,
    pub value: V,
}

/// Where a key stands in a list.
#[derive(Clone, Copy)]
pub enum Slot {
    /// The key is there.
    Here(usize),
    /// The key is not there, and this is its place.
    Free(usize),
}

/// Values under keys, by rising key. A key is found by halves.
#[derive(Drop)]
pub struct KeyedList<V> {
    items: Vec<Keyed<V>>,
}

impl<V> Model for KeyedList<V> {
    ghost use Rattle.std.specs.Prelude.{◌≡◌, ◌-◌, true, vec_len, vec_capacity};
    ghost use Rattle.ktm_keyed.specs.Keyed.{KeyedItems, is_rising};

    ghost Value = { KeyedItems V };

    ghost view = { λ l. record {
      items = l.items.items;
      spare = vec_capacity l.items - vec_len l.items;
    } };

    ghost invariant = { λ l. is_rising l.items.items ≡ true };
}

fn is_before(a: &[u8], b: &[u8]) -> bool
    ensures { result ≡ comes_before a.now b.now }
{
    compare(a, b).is_lt()
}

fn comes_first<V>(key: &[u8], items: &[Keyed<V>]) -> bool
    ensures { result ≡ comes_first key.now items.now }
{
    match items.first() {
        Some(item) => is_before(key, item.key.as_slice()),
        None => true,
    }
}

/// Does each key come before the next one.
pub fn is_rising<V>(items: &[Keyed<V>]) -> bool
    ensures { result ≡ is_rising items.now }
{
    for (i, item) in items.iter().enumerate() {
        if !comes_first(item.key.as_slice(), &items[i + 1..]) {
            return false;
        }
    }
    true
}

// Where the key is, or would be, by halves.
fn search<V>(items: &[Keyed<V>], key: &[u8]) -> Result<usize, usize>
    ensures bound { IsSearchInRange result (length items.now) }
    ensures position { IsBinarySearchResult (key_order key.now) items.now result }
{
    items.binary_search_by(|item| compare(item.key.as_slice(), key))
}

/// Where the key stands in a list by rising key. Keys mostly come by rising key too, so the last one is compared first.
pub fn slot_of<V>(items: &[Keyed<V>], key: &[u8]) -> Slot
    requires { is_rising items.now ≡ true }
    ensures { IsSlot items.now key.now result }
{
    if let Some(last) = items.last() {
        if is_before(last.key.as_slice(), key) {
            return Slot::Free(items.len());
        }
    }
    match search(items, key) {
        Ok(i) => Slot::Here(i),
        Err(i) => Slot::Free(i),
    }
}

impl<V> KeyedList<V> {
    /// A list of nothing.
    pub fn new(alloc: Global) -> Self
        ensures { result.items ≡ [] }
    {
        KeyedList {
            items: Vec::new(alloc),
        }
    }

    pub fn len(&self) -> usize
        ensures { result ≡ length self.now.items }
    {
        self.items.len()
    }

    pub fn as_slice(&self) -> &[Keyed<V>]
        ensures items { result.now ≡ self.now.items }
        ensures rising { is_rising result.now ≡ true }
    {
        &self.items
    }

    pub fn into_vec(self) -> Vec<Keyed<V>>
        ensures items { result.items ≡ self.items }
        ensures rising { is_rising result.items ≡ true }
    {
        let KeyedList { items } = self;
        items
    }

    /// Where the key stands.
    pub fn slot(&self, key: &[u8]) -> Slot
        ensures { IsSlot self.now.items key.now result }
    {
        slot_of(&self.items, key)
    }

    /// The value under the key that stands there.
    pub fn value_in(&self, slot: Slot) -> Option<&V>
        ensures { (key : List ℕ) → IsSlot self.now.items key slot → option_copied result ≡ value_at self.now.items key }
    {
        match slot {
            Slot::Here(i) => match self.items.get(i) {
                Some(item) => Some(&item.value),
                None => None,
            },
            Slot::Free(_) => None,
        }
    }

    /// The value under a key.
    pub fn get(&self, key: &[u8]) -> Option<&V>
        ensures { option_copied result ≡ value_at self.now.items key.now }
    {
        self.value_in(self.slot(key))
    }

    /// Makes room for so many more values.
    pub fn reserve(&mut self, n: usize) -> Result<(), NoMemory>
        ensures items { self.new.items ≡ self.old.items }
        ensures room { OnOk result (n ≤ self.new.spare) }
        ensures err { OnErr result (self.new.spare ≡ self.old.spare) }
        ensures succeeds { n ≤ self.old.spare → IsOk result }
        ensures grows { self.old.spare ≤ self.new.spare }
    {
        self.items.reserve(n)?;
        Ok(())
    }
}

impl<V: Drop> KeyedList<V> {
    /// Puts a value under the key that stands there, in place of what is there. It takes one place of the room at most, and
    /// memory only where there is no room.
    pub fn put_in(&mut self, slot: Slot, key: Text, value: V) -> Result<(), NoMemory>
        requires { IsSlot self.old.items key slot }
        ensures ok { OnOk result (self.new.items ≡ put self.old.items key value) }
        ensures err { OnErr result (self.new.items ≡ self.old.items) }
        ensures succeeds { 0 < self.old.spare → IsOk result }
        ensures in_place { 0 < self.old.spare → self.new.spare + length self.new.items ≡ self.old.spare + length self.old.items }
        ensures room { self.old.spare ≤ self.new.spare + 1 }
    {
        let item = Keyed { key, value };
        match slot {
            Slot::Here(i) => {
                self.items[i] = item;
            }
            Slot::Free(i) => {
                if let Err(_) = self.items.insert(i, item) {
                    return Err(NoMemory);
                }
            }
        }
        Ok(())
    }

    /// Puts a value under a key, in place of what is there. It takes one place of the room at most, and memory only where
    /// there is no room.
    pub fn put(&mut self, key: Text, value: V) -> Result<(), NoMemory>
        ensures ok { OnOk result (self.new.items ≡ put self.old.items key value) }
        ensures err { OnErr result (self.new.items ≡ self.old.items) }
        ensures succeeds { 0 < self.old.spare → IsOk result }
        ensures in_place { 0 < self.old.spare → self.new.spare + length self.new.items ≡ self.old.spare + length self.old.items }
        ensures room { self.old.spare ≤ self.new.spare + 1 }
    {
        let slot = self.slot(key.as_slice());
        self.put_in(slot, key, value)
    }

    /// Takes what is under a key away. It takes no memory.
    pub fn remove(&mut self, key: &[u8])
        ensures items { self.new.items ≡ without self.old.items key.now }
        ensures in_place { self.new.spare + length self.new.items ≡ self.old.spare + length self.old.items }
        ensures room { self.old.spare ≤ self.new.spare }
    {
        if let Slot::Here(i) = self.slot(key) {
            self.items.remove(i);
        }
    }
}
