// A list in order.
ghost use Rattle.std.specs.Prelude.{◌≡◌, ◌≢◌, ◌+◌, ◌-◌, ◌^◌, ◌≤◌, ◌<◌, ◌++◌, ◌∷◌, [], min, None, length, option_copied, OnSome, IfNone, IfOk, IfErr, IsOk, OnOk, OnErr, Some, is_some, true};
ghost use Rattle.std.specs.Option.{option_copied_mut};
ghost use Rattle.ktm_links.specs.Items.{item, value_at, with_value, without, first_key, first_value, rest, IsSpent, KeepsSpent};
ghost use Rattle.ktm_links.specs.declared.list.Key.{Key};

use crate::entry::{Entry, beside_or, set_after, set_before};
use ktm_base::NoMemory;
use slab::Slab;
use std::alloc::Global;
use std::marker::Model;
use std::mem;

/// Which value of a list: where it stands, and a number that no other value of the list ever has.
#[derive(Clone, Copy)]
pub struct Key {
    pub place: usize,
    pub generation: u64,
}

/// Values in order. A key names its value until that is removed, and never another.
#[derive(Drop)]
pub struct List<T> {
    entries: Slab<Entry<T>>,
    head: Option<usize>,
    tail: Option<usize>,
    // The generation of the next key.
    next: u64,
}

impl<T> Model for List<T> {
    ghost use Rattle.std.specs.Prelude.{◌-◌, ◌^◌, min};
    ghost use Rattle.slab.specs.Slab.{slab_len};
    ghost use Rattle.ktm_links.specs.Items.{Listed, listed_code};

    ghost Value = { Listed T };

    ghost coded = { listed_code T.code };

    ghost use Rattle.ktm_links.specs.Links.{walk, IsLinked};

    ghost view = { λ l. record {
      items = walk l.entries (slab_len l.entries) l.head;
      next = l.next;
      spare = min (l.entries.capacity - slab_len l.entries) (2 ^ 64 - 1 - l.next);
    } };

    ghost invariant = { λ l. IsLinked l.entries l.head l.tail l.next (walk l.entries (slab_len l.entries) l.head) };
}

impl<T> List<T> {
    ghost use Rattle.std.specs.Borrow.{sem};
    ghost use Rattle.ktm_links.specs.Lends.{lends_get, lends_value};

    /// A list of nothing.
    pub fn new(alloc: Global) -> Self
        ensures items { result.items ≡ [] }
        ensures next { result.next ≡ 0 }
    {
        List {
            entries: Slab::new(alloc),
            head: None,
            tail: None,
            next: 0,
        }
    }

    /// The value that the key names.
    pub fn get(&self, key: Key) -> Option<&T>
        ensures { option_copied result ≡ value_at self.now.items key }
    {
        match self.entries.get(key.place) {
            Some(entry) => {
                if entry.generation == key.generation {
                    Some(&entry.value)
                } else {
                    None
                }
            }
            None => None,
        }
    }

    /// Does the key name a value.
    pub fn contains(&self, key: Key) -> bool
        ensures { result ≡ is_some (value_at self.now.items key) }
    {
        self.get(key).is_some()
    }

    /// The key of the first value.
    pub fn first_key(&self) -> Option<Key>
        ensures { result ≡ first_key self.now.items }
    {
        match self.head {
            Some(place) => match self.entries.get(place) {
                Some(entry) => Some(Key {
                    place,
                    generation: entry.generation,
                }),
                None => None,
            },
            None => None,
        }
    }

    /// How many values there are.
    pub fn len(&self) -> usize
        ensures { result ≡ length self.now.items }
    {
        self.entries.len()
    }

    /// How many values can come without memory.
    pub fn spare(&self) -> usize
        ensures { result ≡ self.now.spare }
    {
        let next = self.next;
        let places = self.entries.capacity() - self.entries.len();
        places.min((u64::MAX - next) as usize)
    }

    /// Makes room for so many more values. It fails where the memory does not reach, or where fewer keys are left: a list
    /// gives out 2^64 - 1.
    pub fn reserve(&mut self, n: usize) -> Result<(), NoMemory>
        ensures room { OnOk result (n ≤ self.new.spare) }
        ensures enough { n ≤ self.old.spare → IsOk result }
        ensures items { self.new.items ≡ self.old.items }
        ensures next { self.new.next ≡ self.old.next }
        ensures spare { self.old.spare ≤ self.new.spare }
    {
        if n <= self.spare() {
            return Ok(());
        }
        if n as u64 > u64::MAX - self.next {
            return Err(NoMemory);
        }
        if let Err(_) = self.entries.reserve(n) {
            return Err(NoMemory);
        }
        Ok(())
    }

    /// Puts a value at the end, or hands it back where it is out of memory.
    pub fn push_back(&mut self, value: T) -> Result<Key, T>
        ensures fresh { IfOk result (λ key. key.generation ≡ self.old.next) }
        ensures items { IfOk result (λ key. self.new.items ≡ self.old.items ++ item key value ∷ []) }
        ensures next { OnOk result (self.new.next ≡ self.old.next + 1) }
        ensures given_back { IfErr result (λ back. back ≡ value) }
        ensures cause { OnErr result (self.old.spare ≡ 0) }
        ensures err { OnErr result ((self.new.items ≡ self.old.items) × (self.new.next ≡ self.old.next)) }
        ensures spent { KeepsSpent self.old self.new }
        ensures spare { self.old.spare ≤ self.new.spare + 1 }
    {
        if let Err(NoMemory) = self.reserve(1) {
            return Err(value);
        }
        Ok(self.push_spare(value))
    }

    /// Puts a value at the end, and takes no memory.
    pub fn push_spare(&mut self, value: T) -> Key
        requires { 0 < self.old.spare }
        ensures absent { value_at self.old.items result ≡ None }
        ensures fresh { result.generation ≡ self.old.next }
        ensures items { self.new.items ≡ self.old.items ++ item result value ∷ [] }
        ensures next { self.new.next ≡ self.old.next + 1 }
        ensures spare { self.new.spare + 1 ≡ self.old.spare }

        // Of each key, what it names now.
        ensures named { value_at self.new.items result ≡ Some value }
        ensures others { (k : Key) → k ≢ result → value_at self.new.items k ≡ value_at self.old.items k }
        ensures spent { KeepsSpent self.old self.new }
    {
        let generation = self.next;
        let before = self.tail;
        let place = self.entries.insert_reserved(Entry {
            generation,
            value,
            before,
            after: None,
        });
        set_after(&mut self.entries, before, Some(place));
        self.head = Some(self.head.unwrap_or(place));
        self.tail = Some(place);
        self.next = generation + 1;
        Key { place, generation }
    }

    // The value that the key names, for writing.
    fn value_mut(&mut self, key: Key) -> &mut T
        requires { is_some (value_at self.old.items key) ≡ true }
        ensures* writes_back { sem 𝓛 (lends_value T.row self.entry key result) }
        ensures value { Some result.now ≡ value_at self.old.items key }
    {
        &mut self.entries[key.place].value
    }

    /// The value that the key names, for writing.
    pub fn get_mut(&mut self, key: Key) -> Option<&mut T>
        ensures* writes_back { sem 𝓛 (lends_get T.row self.entry key result) }
        ensures value { option_copied_mut result ≡ value_at self.old.items key }
    {
        if self.contains(key) {
            Some(self.value_mut(key))
        } else {
            None
        }
    }

    /// Puts a value under the key in place of the one that it hands out; the value comes back where the key names none.
    pub fn replace(&mut self, key: Key, value: T) -> Result<T, T>
        ensures was { IfOk result (λ was. value_at self.old.items key ≡ Some was) }
        ensures items { OnOk result (self.new.items ≡ with_value self.old.items key value) }
        ensures next { self.new.next ≡ self.old.next }
        ensures spare { self.new.spare ≡ self.old.spare }
        ensures cause { OnErr result (value_at self.old.items key ≡ None) }
        ensures given_back { IfErr result (λ back. back ≡ value) }
        ensures unchanged { OnErr result (self.new.items ≡ self.old.items) }

        // Of each key, what it names now.
        ensures named { OnOk result (value_at self.new.items key ≡ Some value) }
        ensures others { (k : Key) → k ≢ key → value_at self.new.items k ≡ value_at self.old.items k }
        ensures spent { KeepsSpent self.old self.new }
    {
        match self.get_mut(key) {
            Some(place) => Ok(mem::replace(place, value)),
            None => Err(value),
        }
    }

    /// Removes the value that the key names.
    pub fn unlink(&mut self, key: Key) -> Option<T>
        ensures value { result ≡ value_at self.old.items key }
        ensures items { self.new.items ≡ without self.old.items key }
        ensures next { self.new.next ≡ self.old.next }
        ensures spare { OnSome result (self.new.spare ≡ min (self.old.spare + 1) (2 ^ 64 - 1 - self.old.next)) }
        ensures kept { IfNone result (self.new.spare ≡ self.old.spare) }
        ensures no_less { self.old.spare ≤ self.new.spare }

        // Of each key, what it names now.
        ensures gone { OnSome result (IsSpent self.new key) }
        ensures others { (k : Key) → k ≢ key → value_at self.new.items k ≡ value_at self.old.items k }
        ensures spent { KeepsSpent self.old self.new }
    {
        if !self.contains(key) {
            return None;
        }
        let entry = self.entries.remove(key.place);
        set_after(&mut self.entries, entry.before, entry.after);
        set_before(&mut self.entries, entry.after, entry.before);
        self.head = beside_or(entry.before, self.head, entry.after);
        self.tail = beside_or(entry.after, self.tail, entry.before);
        Some(entry.value)
    }

    /// Removes the first value.
    pub fn pop_front(&mut self) -> Option<T>
        ensures value { result ≡ first_value self.old.items }
        ensures items { self.new.items ≡ rest self.old.items }
        ensures next { self.new.next ≡ self.old.next }
        ensures spare { OnSome result (self.new.spare ≡ min (self.old.spare + 1) (2 ^ 64 - 1 - self.old.next)) }
        ensures kept { IfNone result (self.new.spare ≡ self.old.spare) }
        ensures no_less { self.old.spare ≤ self.new.spare }

        // Of each key, what it names now.
        ensures now_spent { (k : Key) → first_key self.old.items ≡ Some k → IsSpent self.new k }
        ensures others { (k : Key) → first_key self.old.items ≢ Some k → value_at self.new.items k ≡ value_at self.old.items k }
        ensures spent { KeepsSpent self.old self.new }
    {
        match self.first_key() {
            Some(key) => self.unlink(key),
            None => None,
        }
    }
}
