// A map from names.
ghost use Rattle.std.specs.Prelude.{◌≡◌, ◌≢◌, ℕ, List as Seq, ◌<◌, ◌≤◌, ◌+◌, ◌-◌, ◌^◌, min, [], Some, None, IsOk, OnOk, OnErr, OnSome, IfOk, IfErr, IfSome, IfNone, is_some, option_copied, true};
ghost use Rattle.std.specs.Borrow.{sem};
ghost use Rattle.std.specs.Option.{option_copied_mut, option_map};
ghost use Rattle.ktm_links.specs.Items.{value_at};
ghost use Rattle.ktm_links.specs.Lends.{lends_item};
ghost use Rattle.ktm_links.specs.declared.list.Key.{Key};
ghost use Rattle.ktm_links.specs.Mapped.{at, entries_from, first_from, key_at, put, value_of, without_name, Begins, IsFirstOf, IsNoneOf, IsNotBelow, IsRising, KeepsSpent, Spends};

use crate::list::{Key, List};
use crate::name::Name;
use crate::named::Named;
use crate::order::Order;
use crate::search::{not_below, search, search_from};
use crate::walk::Walk;
use ktm_base::NoMemory;
use std::alloc::Global;
use std::marker::Model;

/// A map from names to values. It finds a name by halves, and moves few keys as one comes or goes.
#[derive(Drop)]
pub struct Chains<K: Name, T> {
    values: List<Named<K, T>>,
    // The keys of the values, by rising name.
    order: Order,
}

impl<K: Name, T> Model for Chains<K, T> {
    ghost use Rattle.std.specs.Prelude.{◌-◌, length, min};
    ghost use Rattle.ktm_links.specs.Mapped.{Mapped, mapped_code};

    ghost Value = { Mapped T };

    ghost coded = { mapped_code T.code };

    ghost use Rattle.ktm_links.specs.Blocks.{flat};
    ghost use Rattle.ktm_links.specs.Order.{entries_of, IsInOrder};

    ghost view = { λ c. record {
      entries = entries_of c.values.items (flat c.order.blocks);
      next = c.values.next;
      spare = min c.values.spare (c.order.capacity - length (flat c.order.blocks));
    } };

    ghost invariant = { λ c. IsInOrder c.values.items (flat c.order.blocks) };
}

fn value_in<K: Name, T>(named: Option<Named<K, T>>) -> Option<T>
    ensures { result ≡ option_map (λ n. n.value) named }
{
    match named {
        Some(named) => Some(named.into_value()),
        None => None,
    }
}

// The value of what the key names, for writing.
fn value_mut<K: Name, T>(values: &mut List<Named<K, T>>, key: Key) -> Option<&mut T>
    ensures* writes_back { sem 𝓛 (lends_item K.row T.row K.Name values.entry key result) }
    ensures value { option_copied_mut result ≡ option_map (λ n. n.value) (value_at values.old.items key) }
{
    match values.get_mut(key) {
        Some(named) => Some(named.value_mut()),
        None => None,
    }
}

impl<K: Name, T> Chains<K, T> {
    ghost use Rattle.ktm_links.specs.Lends.{lends_found};

    /// A map of nothing.
    pub fn new(alloc: Global) -> Self
        ensures entries { result.entries ≡ [] }
        ensures next { result.next ≡ 0 }
    {
        Chains {
            values: List::new(alloc),
            order: Order::new(alloc),
        }
    }

    /// The key of the value under the name.
    pub fn find(&self, name: &[u8]) -> Option<Key>
        ensures key { result ≡ key_at self.now.entries name.now }
        ensures value { IfSome result (λ key. value_of self.now.entries key ≡ option_map (λ e. e.1) (at self.now.entries name.now)) }
        ensures absent { IfNone result (at self.now.entries name.now ≡ None) }
    {
        match search(&self.values, self.order.as_blocks(), name) {
            Ok(spot) => self.order.get(spot),
            Err(_) => None,
        }
    }

    /// The key of the first value whose name is not below this one.
    pub fn first_from(&self, name: &[u8]) -> Option<Key>
        ensures key { result ≡ option_map (λ e. e.0) (first_from self.now.entries name.now) }
        ensures value { IfSome result (λ key. value_of self.now.entries key ≡ option_map (λ e. e.1) (first_from self.now.entries name.now)) }
        ensures first { IfSome result (λ key. IsFirstOf (λ q. IsNotBelow q name.now) self.now.entries key) }
        ensures none { IfNone result (IsNoneOf (λ q. IsNotBelow q name.now) self.now.entries) }
    {
        self.order
            .get(not_below(&self.values, self.order.as_blocks(), name))
    }

    /// The entries whose names are not below this one, by rising name, one after another.
    pub fn walk_from(&self, name: &[u8]) -> Walk<'_, K, T>
        ensures entries { result ≡ entries_from self.now.entries name.now }
        ensures rising { IsRising self.now.entries }
    {
        let spot = not_below(&self.values, self.order.as_blocks(), name);
        Walk::new(&self.values, self.order.keys_from(spot))
    }

    /// The key of the value whose name is the first that begins with these bytes.
    pub fn first_with(&self, prefix: &[u8]) -> Option<Key>
        ensures first { IfSome result (λ key. IsFirstOf (Begins prefix.now) self.now.entries key) }
        ensures none { IfNone result (IsNoneOf (Begins prefix.now) self.now.entries) }
    {
        match self.first_from(prefix) {
            Some(key) => match self.name(key) {
                Some(name) => {
                    if name.starts_with(prefix) {
                        Some(key)
                    } else {
                        None
                    }
                }
                None => None,
            },
            None => None,
        }
    }

    /// The name under which the key's value stands.
    pub fn name(&self, key: Key) -> Option<&[u8]>
        ensures name { (q : Seq ℕ) (v : T) → at self.now.entries q ≡ Some (key, v) → option_copied result ≡ Some q }
        ensures none { IfNone result (value_of self.now.entries key ≡ None) }
    {
        match self.values.get(key) {
            Some(named) => Some(named.name()),
            None => None,
        }
    }

    /// The value that the key names.
    pub fn get(&self, key: Key) -> Option<&T>
        ensures value { option_copied result ≡ value_of self.now.entries key }
        ensures under { (q : Seq ℕ) (v : T) → at self.now.entries q ≡ Some (key, v) → option_copied result ≡ Some v }
    {
        match self.values.get(key) {
            Some(named) => Some(named.value()),
            None => None,
        }
    }

    /// The value under the name, for writing.
    pub fn find_mut(&mut self, name: &[u8]) -> Option<&mut T>
        ensures* writes_back { sem 𝓛 (lends_found K.row T.row K.Name self.entry name.now result) }
        ensures value { option_copied_mut result ≡ option_map (λ e. e.1) (at self.old.entries name.now) }
    {
        match self.find(name) {
            Some(key) => value_mut(&mut self.values, key),
            None => None,
        }
    }

    /// How many values can come without memory.
    pub fn spare(&self) -> usize
        ensures { result ≡ self.now.spare }
    {
        self.values.spare().min(self.order.spare())
    }

    /// Makes room for so many more values. It fails where the memory does not reach, or where fewer keys are left: a map
    /// gives out 2^64 - 1.
    pub fn reserve(&mut self, n: usize) -> Result<(), NoMemory>
        ensures room { OnOk result (n ≤ self.new.spare) }
        ensures enough { n ≤ self.old.spare → IsOk result }
        ensures entries { self.new.entries ≡ self.old.entries }
        ensures next { self.new.next ≡ self.old.next }
        ensures spare { self.old.spare ≤ self.new.spare }
    {
        if let Err(NoMemory) = self.values.reserve(n) {
            return Err(NoMemory);
        }
        if let Err(NoMemory) = self.order.reserve(n) {
            return Err(NoMemory);
        }
        Ok(())
    }

    /// Puts a value under the name, or hands it back where one stands there, and takes no memory.
    #[inline(always)]
    pub fn insert_new(&mut self, name: K, value: T) -> Result<Key, T>
        requires { 0 < self.old.spare }

        ensures free { OnOk result (key_at self.old.entries (K.bytes name) ≡ None) }
        ensures taken { OnErr result (is_some (key_at self.old.entries (K.bytes name)) ≡ true) }
        ensures unchanged { OnErr result (self.new ≡ self.old) }
        ensures given_back { IfErr result (λ back. back ≡ value) }
        ensures fresh { IfOk result (λ key. key.generation ≡ self.old.next) }
        ensures entries { IfOk result (λ key. self.new.entries ≡ put self.old.entries (record { name = K.bytes name; key = key; value = value })) }
        ensures next { OnOk result (self.new.next ≡ self.old.next + 1) }
        ensures spare { OnOk result (self.new.spare + 1 ≡ self.old.spare) }

        // Of each name and of each key, what it stands for behind the call.
        ensures under { IfOk result (λ key. at self.new.entries (K.bytes name) ≡ Some (key, value)) }
        ensures other_names { (q : Seq ℕ) → q ≢ K.bytes name → at self.new.entries q ≡ at self.old.entries q }
        ensures named { IfOk result (λ key. value_of self.new.entries key ≡ Some value) }
        ensures other_keys { IfOk result (λ key. (k : Key) → k ≢ key → value_of self.new.entries k ≡ value_of self.old.entries k) }
        ensures spent { KeepsSpent self.old self.new }
    {
        match search_from(
            &self.values,
            self.order.as_blocks(),
            self.order.last(),
            name.as_slice(),
        ) {
            Ok(_) => Err(value),
            Err(spot) => {
                let key = self.values.push_spare(Named::new(name, value));
                self.order.insert(spot, key);
                Ok(key)
            }
        }
    }

    /// Puts a value under a name that has none, and takes no memory.
    pub fn insert(&mut self, name: K, value: T) -> Key
        requires spare { 0 < self.old.spare }
        requires free { key_at self.old.entries (K.bytes name) ≡ None }

        ensures fresh { result.generation ≡ self.old.next }
        ensures entries { self.new.entries ≡ put self.old.entries (record { name = K.bytes name; key = result; value = value }) }
        ensures next { self.new.next ≡ self.old.next + 1 }
        ensures spare { self.new.spare + 1 ≡ self.old.spare }

        // Of each name and of each key, what it stands for behind the call.
        ensures under { at self.new.entries (K.bytes name) ≡ Some (result, value) }
        ensures other_names { (q : Seq ℕ) → q ≢ K.bytes name → at self.new.entries q ≡ at self.old.entries q }
        ensures named { value_of self.new.entries result ≡ Some value }
        ensures other_keys { (k : Key) → k ≢ result → value_of self.new.entries k ≡ value_of self.old.entries k }
        ensures spent { KeepsSpent self.old self.new }
    {
        match self.insert_new(name, value) {
            Ok(key) => key,
            Err(_) => unreachable!(),
        }
    }

    /// Removes the value under the name.
    pub fn remove(&mut self, name: &[u8]) -> Option<T>
        ensures value { result ≡ option_map (λ e. e.1) (at self.old.entries name.now) }
        ensures entries { self.new.entries ≡ without_name self.old.entries name.now }
        ensures next { self.new.next ≡ self.old.next }
        ensures spare { OnSome result (self.new.spare ≡ min (self.old.spare + 1) (2 ^ 64 - 1 - self.old.next)) }
        ensures kept { IfNone result (self.new.spare ≡ self.old.spare) }
        ensures no_less { self.old.spare ≤ self.new.spare }

        // Of each name and of each key, what it stands for behind the call.
        ensures gone { at self.new.entries name.now ≡ None }
        ensures other_names { (q : Seq ℕ) → q ≢ name.now → at self.new.entries q ≡ at self.old.entries q }
        ensures keys { Spends self.old self.new (key_at self.old.entries name.now) }
    {
        match search(&self.values, self.order.as_blocks(), name) {
            Ok(spot) => {
                let key = self.order.remove(spot);
                value_in(self.values.unlink(key))
            }
            Err(_) => None,
        }
    }
}
