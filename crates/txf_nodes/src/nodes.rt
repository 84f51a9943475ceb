// The nodes by their numbers.
ghost use Rattle.std.specs.Prelude.{◌≡◌, ◌+◌, ◌<◌, ◌≤◌, ◌^◌, ◌&&◌, [], None, Some, length, option_copied, is_some, true, OnOk, IsOk, IfSome};
ghost use Rattle.std.specs.Borrow.{sem};
ghost use Rattle.std.specs.Option.{option_map, option_copied_mut, option_and_then};
ghost use Rattle.ktm_base.specs.declared.limits.TheConstants.{MOST_NAME_BYTES};
ghost use Rattle.ktm_links.specs.Items.{value_at};
ghost use Rattle.txf_nodes.specs.Indexes.{has_number, replaced, under, with_now, without_now, IsIndexed};
ghost use Rattle.txf_nodes.specs.Lends.{lends_item};
ghost use Rattle.txf_nodes.specs.NodesState.{NodeOf, content_in, now_at};
ghost use Rattle.txf_nodes.specs.Places.{number_bytes};

use crate::by_number::ByNumber;
use crate::hints::Hints;
use crate::name::{NumberName, number_bytes};
use crate::stored::StoredNode;
use ktm_base::{NoMemory, Text};
use ktm_links::{Chains, Key, List};
use std::alloc::Global;
use std::marker::Model;

/// Nodes, each found by its number.
#[derive(Drop)]
pub(crate) struct Nodes<C> {
    nodes: List<StoredNode<C>>,
    // The keys of the nodes, by their numbers.
    numbers: Chains<NumberName, Key>,
    // Where each node is looked for first.
    hints: Hints,
}

impl<C> Model for Nodes<C> {
    ghost use Rattle.std.specs.Prelude.{min};
    ghost use Rattle.txf_nodes.specs.NodesState.{NodesState, nodes_code};

    ghost Value = { NodesState C };

    ghost coded = { nodes_code C.code };

    ghost use Rattle.txf_nodes.specs.Indexes.{nodes_of, IsIndexed};

    ghost view = { λ n. record {
      nodes = nodes_of n.nodes.items n.numbers.entries;
      spare = min n.nodes.spare n.numbers.spare;
    } };

    ghost invariant = { λ n. IsIndexed n.nodes.items n.numbers.entries };
}

// Does the key name a node with this number.
fn has_number<C>(nodes: &List<StoredNode<C>>, key: Key, number: u64) -> bool
    ensures { result ≡ has_number number (value_at nodes.now.items key) }
{
    match nodes.get(key) {
        Some(stored) => stored.number() == number,
        None => false,
    }
}

// The key that stands under the number. It is searched for only where the hint is not that of a node with this number.
#[inline(always)]
fn key_of<C>(
    hints: &Hints,
    nodes: &List<StoredNode<C>>,
    numbers: &Chains<NumberName, Key>,
    number: u64,
) -> Option<Key>
    requires { IsIndexed nodes.now.items numbers.now.entries }
    ensures { result ≡ under numbers.now.entries (number_bytes number) }
{
    if let Some(key) = hints.get(number) {
        if has_number(nodes, key, number) {
            return Some(key);
        }
    }
    match numbers.find(&number_bytes(number)) {
        Some(key) => numbers.get(key).copied(),
        None => None,
    }
}

// Does the key name a file.
fn is_file_at<C>(nodes: &List<StoredNode<C>>, key: Key) -> bool
    ensures { result ≡ is_some (content_in (value_at nodes.now.items key)) }
{
    match nodes.get(key) {
        Some(stored) => stored.is_file(),
        None => false,
    }
}

// The content of the file that the key names, for writing, which counts as so many changes.
fn content_at<C>(nodes: &mut List<StoredNode<C>>, key: Key, changes: u64) -> Option<&mut C>
    requires { IfSome (value_at nodes.old.items key) (λ n. 0 < changes → n.version + changes < 2 ^ 64) }
    ensures* writes_back { sem 𝓛 (lends_item C.row nodes.entry key changes result) }
    ensures value { option_copied_mut result ≡ content_in (value_at nodes.old.items key) }
{
    if !is_file_at(nodes, key) {
        return None;
    }
    match nodes.get_mut(key) {
        Some(stored) => Some(stored.content_mut(changes)),
        None => None,
    }
}

impl<C> Nodes<C> {
    ghost use Rattle.txf_nodes.specs.Lends.{lends_in};

    pub(crate) fn new(alloc: Global) -> Self
        ensures { result.nodes ≡ [] }
    {
        Nodes {
            nodes: List::new(alloc),
            numbers: Chains::new(alloc),
            hints: Hints::new(alloc),
        }
    }

    pub(crate) fn len(&self) -> usize
        ensures { result ≡ length self.now.nodes }
    {
        self.nodes.len()
    }

    /// The node with the number.
    pub(crate) fn get(&self, number: u64) -> Option<&StoredNode<C>>
        ensures { option_copied result ≡ now_at self.now.nodes number }
    {
        match key_of(&self.hints, &self.nodes, &self.numbers, number) {
            Some(key) => self.nodes.get(key),
            None => None,
        }
    }

    /// The nodes, one after another.
    pub(crate) fn by_number(&self) -> ByNumber<'_, C>
        ensures { result ≡ self.now.nodes }
    {
        ByNumber::new(&self.nodes, self.numbers.walk_from(&[]))
    }

    // How many nodes can come without memory.
    fn spare(&self) -> usize
        ensures { result ≡ self.now.spare }
    {
        self.nodes.spare().min(self.numbers.spare())
    }

    pub(crate) fn reserve(&mut self, n: usize) -> Result<(), NoMemory>
        ensures room { OnOk result (n ≤ self.new.spare) }
        ensures enough { n ≤ self.old.spare → IsOk result }
        ensures nodes { self.new.nodes ≡ self.old.nodes }
        ensures spare { self.old.spare ≤ self.new.spare }
    {
        if n <= self.spare() {
            return Ok(());
        }
        if let Err(NoMemory) = self.hints.reserve() {
            return Err(NoMemory);
        }
        if let Err(NoMemory) = self.nodes.reserve(n) {
            return Err(NoMemory);
        }
        if let Err(NoMemory) = self.numbers.reserve(n) {
            return Err(NoMemory);
        }
        Ok(())
    }

    /// Puts a node whose number is free at its place, and takes no memory.
    #[inline(always)]
    pub(crate) fn insert(&mut self, node: StoredNode<C>)
        requires spare { 0 < self.old.spare }
        requires free { now_at self.old.nodes node.number ≡ None }
        ensures nodes { self.new.nodes ≡ with_now self.old.nodes node }
        ensures spare { self.new.spare + 1 ≡ self.old.spare }
    {
        let number = node.number();
        let key = self.nodes.push_spare(node);
        self.numbers.insert(number_bytes(number), key);
        self.hints.note(number, key);
    }

    /// Takes the node with the number out.
    pub(crate) fn remove(&mut self, number: u64) -> Option<StoredNode<C>>
        ensures node { result ≡ now_at self.old.nodes number }
        ensures nodes { self.new.nodes ≡ without_now self.old.nodes number }
        ensures spare { self.old.spare ≤ self.new.spare }
    {
        match key_of(&self.hints, &self.nodes, &self.numbers, number) {
            Some(key) => {
                self.numbers.remove(&number_bytes(number));
                self.nodes.unlink(key)
            }
            None => None,
        }
    }

    /// The content of the file with the number, for writing, which counts as so many changes.
    pub(crate) fn content_mut(&mut self, number: u64, changes: u64) -> Option<&mut C>
        requires { IfSome (now_at self.old.nodes number) (λ n. 0 < changes → n.version + changes < 2 ^ 64) }
        ensures* writes_back { sem 𝓛 (lends_in C.row self.entry number changes result) }
        ensures value { option_copied_mut result ≡ content_in (now_at self.old.nodes number) }
    {
        match key_of(&self.hints, &self.nodes, &self.numbers, number) {
            Some(key) => content_at(&mut self.nodes, key, changes),
            None => None,
        }
    }

    /// Gives a node another directory and another name.
    pub(crate) fn rename(&mut self, number: u64, parent: u64, name: Text)
        requires there { is_some (now_at self.old.nodes number) ≡ true }
        requires few { length name ≤ MOST_NAME_BYTES }
        ensures nodes { (n : NodeOf C) → now_at self.old.nodes number ≡ Some n → self.new.nodes ≡ replaced self.old.nodes number (record n { parent = parent; name = name }) }
        ensures spare { self.new.spare ≡ self.old.spare }
    {
        let Some(key) = key_of(&self.hints, &self.nodes, &self.numbers, number) else {
            unreachable!();
        };
        match self.nodes.get_mut(key) {
            Some(stored) => stored.rename(parent, name),
            None => unreachable!(),
        }
    }

    /// The content of the node with the number, if there is one, counts as never changed.
    pub(crate) fn forget_version(&mut self, number: u64)
        ensures nodes { (n : NodeOf C) → now_at self.old.nodes number ≡ Some n → self.new.nodes ≡ replaced self.old.nodes number (record n { version = 0 }) }
        ensures none { now_at self.old.nodes number ≡ None → self.new.nodes ≡ self.old.nodes }
        ensures spare { self.new.spare ≡ self.old.spare }
    {
        let Some(key) = key_of(&self.hints, &self.nodes, &self.numbers, number) else {
            return;
        };
        match self.nodes.get_mut(key) {
            Some(stored) => stored.forget_version(),
            None => unreachable!(),
        }
    }
}
