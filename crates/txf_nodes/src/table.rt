// Files and directories by number and by name.
ghost use Rattle.std.specs.Prelude.{◌≡◌, List as Seq, ◌+◌, ◌^◌, ◌<◌, ◌≤◌, ℕ, [], None, Some, true, is_some, length, option_copied, OnOk, OnErr, IsOk, OnSome, IfOk, IfErr, ◌≢◌, false};
ghost use Rattle.std.specs.Option.{option_copied_mut, option_map};
ghost use Rattle.ktm_base.specs.declared.limits.TheConstants.{MOST_NAME_BYTES};
ghost use Rattle.ktm_links.specs.Mapped.{Begins};
ghost use Rattle.ktm_world.specs.declared.change.Change.TheVariants.{Make, Move};
ghost use Rattle.ktm_world.specs.declared.change.NodeKind.{NodeKind};
ghost use Rattle.ktm_world.specs.Changes.{applies};
ghost use Rattle.ktm_world.specs.Committed.{version_of, without_version};
ghost use Rattle.ktm_world.specs.Tree.{bytes_of, child_of, content_of, has_entries, is_at_or_below, is_directory, is_file, node_at, numbers_rise, parent_of, root, with_changed, without_node};
ghost use Rattle.txf_nodes.specs.Children.{entries_in, matching};
ghost use Rattle.txf_nodes.specs.Indexes.{under, with_now};
ghost use Rattle.txf_nodes.specs.Lends.{with_content_at};
ghost use Rattle.txf_nodes.specs.NodesState.{content_at, node_by, now_at, tree_by, versions_of, IsInserted, IsRefilled, KeepsContents, SetsContent};
ghost use Rattle.txf_nodes.specs.Places.{entries_from, number_bytes};

use crate::by_number::ByNumber;
use crate::children::Children;
use crate::entry::Entries;
use crate::name::{ChildName, child_name, number_bytes};
use crate::nodes::Nodes;
use crate::stored::StoredNode;
use ktm_base::{MOST_NAME_BYTES, NoMemory, Text};
use ktm_links::{Chains, Name};
use ktm_names::{Pattern, ROOT};
use std::alloc::Global;
use std::marker::Model;
use std::mem;

/// Files and directories, whose contents are of any type. What it says of them it says whatever bytes a content has.
#[derive(Drop)]
pub struct NodeTable<C> {
    alloc: Global,
    nodes: Nodes<C>,
    // The numbers of the nodes, by their directories' numbers and their folded names.
    names: Chains<ChildName, u64>,
}

impl<C> Model for NodeTable<C> {
    ghost use Rattle.std.specs.Prelude.{min};
    ghost use Rattle.txf_nodes.specs.NodesState.{NodesState, nodes_code};

    ghost Value = { NodesState C };

    ghost coded = { nodes_code C.code };

    ghost use Rattle.txf_nodes.specs.Indexes.{IsTree};

    ghost view = { λ t. record {
      nodes = t.nodes.nodes;
      spare = min t.nodes.spare t.names.spare;
    } };

    ghost invariant = { λ t. IsTree t.nodes.nodes t.names.entries };
}

// The number that stands under the name.
fn number_under(names: &Chains<ChildName, u64>, name: &[u8]) -> Option<u64>
    ensures { result ≡ under names.now.entries name.now }
{
    match names.find(name) {
        Some(key) => names.get(key).copied(),
        None => None,
    }
}

impl<C> NodeTable<C> {
    ghost use Rattle.std.specs.Borrow.{sem};
    ghost use Rattle.txf_nodes.specs.Lends.{lends_of};

    /// The root alone.
    pub fn new(alloc: Global) -> Self
        ensures { result.nodes ≡ [] }
    {
        NodeTable {
            alloc,
            nodes: Nodes::new(alloc),
            names: Chains::new(alloc),
        }
    }

    /// The numbers of its nodes rise.
    pub fn law_of_numbers(&self)
        ensures { (bytes : C → Seq ℕ) → numbers_rise (tree_by bytes self.now) ≡ true }
    {
        let _ = &self.alloc;
    }

    /// How many nodes there are beside the root.
    pub fn len(&self) -> usize
        ensures nodes { result ≡ length self.now.nodes }
        ensures tree { (bytes : C → Seq ℕ) → result ≡ length (tree_by bytes self.now) }
    {
        self.nodes.len()
    }

    /// The node with the number. The root has none.
    pub fn node(&self, number: u64) -> Option<&StoredNode<C>>
        ensures now { option_copied result ≡ now_at self.now.nodes number }
        ensures node { (bytes : C → Seq ℕ) → option_map (node_by bytes) (option_copied result) ≡ node_at (tree_by bytes self.now) number }
    {
        let nodes = &self.nodes;
        if number == ROOT {
            return None;
        }
        nodes.get(number)
    }

    /// The nodes but the root, by rising number, one after another.
    pub fn by_number(&self) -> ByNumber<'_, C>
        ensures { result ≡ self.now.nodes }
    {
        self.nodes.by_number()
    }

    pub fn is_file(&self, number: u64) -> bool
        ensures { (bytes : C → Seq ℕ) → result ≡ is_file (tree_by bytes self.now) number }
    {
        match self.node(number) {
            Some(node) => node.is_file(),
            None => false,
        }
    }

    /// The root is a directory.
    pub fn is_directory(&self, number: u64) -> bool
        ensures { (bytes : C → Seq ℕ) → result ≡ is_directory (tree_by bytes self.now) number }
    {
        match self.node(number) {
            Some(node) => !node.is_file(),
            None => number == ROOT,
        }
    }

    /// The content of a file.
    pub fn content(&self, file: u64) -> Option<&C>
        ensures content { option_copied result ≡ content_at self.now file }
        ensures bytes { (bytes : C → Seq ℕ) → option_map bytes (option_copied result) ≡ content_of (node_at (tree_by bytes self.now) file) }
    {
        match self.node(file) {
            Some(node) => node.content(),
            None => None,
        }
    }

    /// How often the content of a file was changed since the restart.
    pub fn version(&self, file: u64) -> u64
        ensures { result ≡ version_of (versions_of self.now) file }
    {
        match self.nodes.get(file) {
            Some(node) => node.version(),
            None => 0,
        }
    }

    /// The number of the node with the name in the directory. It takes no memory.
    pub fn child(&self, directory: u64, name: &[u8]) -> Option<u64>
        ensures { (bytes : C → Seq ℕ) → result ≡ option_map (λ node. node.number) (child_of (tree_by bytes self.now) directory name.now) }
    {
        let names = &self.names;
        if name.len() > MOST_NAME_BYTES {
            return None;
        }
        number_under(names, child_name(directory, name).as_slice())
    }

    /// Is anything in the directory.
    pub fn has_entries(&self, directory: u64) -> bool
        ensures { (bytes : C → Seq ℕ) → result ≡ has_entries (tree_by bytes self.now) directory }
    {
        self.names.first_with(&number_bytes(directory)).is_some()
    }

    /// Is the node with the number the other one, or below it. It goes up from the node, and ends at the root.
    pub fn is_at_or_below(&self, number: u64, other: u64) -> bool
        ensures { (bytes : C → Seq ℕ) → result ≡ is_at_or_below (tree_by bytes self.now) number other }
    {
        let mut at = number;
        for _ in 0..self.len() {
            if at == other {
                return true;
            }
            let above = self.parent_of(at);
            if above == at {
                return false;
            }
            at = above;
        }
        at == other
    }

    /// The entries of a directory whose places are not below this one, one after another.
    pub fn children(&self, directory: u64, from: &[u8]) -> Children<'_, C>
        requires { Begins (number_bytes directory) from.now }
        ensures { (bytes : C → Seq ℕ) → result ≡ entries_from directory from.now (entries_in (tree_by bytes self.now) directory) }
    {
        Children::new(&self.nodes, directory, self.names.walk_from(from))
    }

    /// The entries of a directory that a pattern matches, by rising folded name. Their names are lent. No other is looked at
    /// but those that begin with the characters before the pattern's first star or question mark, and the one behind them.
    pub fn entries(&self, directory: u64, pattern: &Pattern) -> Result<Entries<'_>, NoMemory>
        ensures { IfOk result (λ entries. (bytes : C → Seq ℕ) → entries ≡ matching pattern.now.last (entries_in (tree_by bytes self.now) directory)) }
    {
        let mut entries = Entries::new(self.alloc);
        let mut children = self.children(
            directory,
            child_name(directory, pattern.lead()).as_slice(),
        );
        while let Some(entry) = children.first() {
            if !pattern.reaches(entry.name) {
                return Ok(entries);
            }
            if let Err(NoMemory) = entries.push_matching(entry, pattern) {
                return Err(NoMemory);
            }
            children.skip();
        }
        Ok(entries)
    }

    /// Makes room for so many more nodes. It fails where the memory does not reach, or where the table has had nearly 2^64
    /// nodes and names.
    pub fn reserve(&mut self, n: usize) -> Result<(), NoMemory>
        ensures room { OnOk result (n ≤ self.new.spare) }
        ensures enough { n ≤ self.old.spare → IsOk result }
        ensures nodes { self.new.nodes ≡ self.old.nodes }
        ensures spare { self.old.spare ≤ self.new.spare }
    {
        if let Err(NoMemory) = self.nodes.reserve(n) {
            return Err(NoMemory);
        }
        if let Err(NoMemory) = self.names.reserve(n) {
            return Err(NoMemory);
        }
        Ok(())
    }

    // Puts a node whose number and name are free, and whose content was never changed. It takes no memory.
    fn insert(&mut self, number: u64, parent: u64, name: Text, content: Option<C>)
        requires spare { 0 < self.old.spare }
        requires few { length name ≤ MOST_NAME_BYTES }
        requires not_root { number ≢ root }
        requires number { (bytes : C → Seq ℕ) × (node_at (tree_by bytes self.old) number ≡ None) }
        requires name { (bytes : C → Seq ℕ) × (child_of (tree_by bytes self.old) parent name ≡ None) }
        ensures { IsInserted self.old self.new number parent name content }
    {
        if let Err(_) = self.put(StoredNode::new(number, parent, name, content)) {
            unreachable!();
        }
    }

    /// Makes a node, for which the memory is there.
    pub fn make(&mut self, number: u64, parent: u64, name: Text, content: Option<C>)
        requires spare { 0 < self.old.spare }
        requires applies { (bytes : C → Seq ℕ) × (kind : NodeKind) × (applies (tree_by bytes self.old) (Make number parent kind name) ≡ true) }
        ensures { IsInserted self.old self.new number parent name content }
    {
        self.insert(number, parent, name, content);
    }

    /// Makes a node if that applies, or hands back its content. The memory is there.
    pub fn make_new(
        &mut self,
        number: u64,
        parent: u64,
        name: Text,
        content: Option<C>,
    ) -> Result<(), Option<C>>
        requires { 0 < self.old.spare }
        ensures applies { OnOk result ((bytes : C → Seq ℕ) (kind : NodeKind) → applies (tree_by bytes self.old) (Make number parent kind name) ≡ true) }
        ensures refused { OnErr result ((bytes : C → Seq ℕ) (kind : NodeKind) → applies (tree_by bytes self.old) (Make number parent kind name) ≡ false) }
        ensures inserted { OnOk result (IsInserted self.old self.new number parent name content) }
        ensures unchanged { OnErr result (self.new ≡ self.old) }
        ensures given_back { IfErr result (λ back. back ≡ content) }
    {
        if !self.is_new_place(number, parent, name.as_slice()) {
            return Err(content);
        }
        match self.put(StoredNode::new(number, parent, name, content)) {
            Ok(()) => Ok(()),
            Err(node) => Err(node.into_content()),
        }
    }

    /// Gives a node another name, or another directory, for which the memory is there.
    pub fn rename(&mut self, number: u64, parent: u64, name: Text)
        requires spare { 0 < self.old.spare }
        requires applies { (bytes : C → Seq ℕ) × (applies (tree_by bytes self.old) (Move number parent name) ≡ true) }
        ensures tree { (bytes : C → Seq ℕ) → tree_by bytes self.new ≡ with_changed (tree_by bytes self.old) number (λ node. record node { parent = parent; name = name }) }
        ensures versions { versions_of self.new ≡ versions_of self.old }
        ensures contents { KeepsContents self.old self.new }
        ensures spare { self.old.spare ≤ self.new.spare + 1 }
    {
        let Some(stored) = self.nodes.get(number) else {
            unreachable!();
        };
        let was = child_name(stored.parent(), stored.name());
        self.names.remove(was.as_slice());
        self.names
            .insert(child_name(parent, name.as_slice()), number);
        self.nodes.rename(number, parent, name);
    }

    /// Takes a node out, and hands out the content of a file.
    pub fn remove(&mut self, number: u64) -> Option<C>
        ensures content { result ≡ content_at self.old number }
        ensures bytes { (bytes : C → Seq ℕ) → option_map bytes result ≡ content_of (node_at (tree_by bytes self.old) number) }
        ensures tree { (bytes : C → Seq ℕ) → tree_by bytes self.new ≡ without_node (tree_by bytes self.old) number }
        ensures versions { versions_of self.new ≡ without_version (versions_of self.old) number }
        ensures contents { SetsContent self.old self.new number None }
        ensures spare { self.old.spare ≤ self.new.spare }
    {
        match self.nodes.remove(number) {
            Some(stored) => {
                self.names
                    .remove(child_name(stored.parent(), stored.name()).as_slice());
                stored.into_content()
            }
            None => None,
        }
    }

    /// The content of a file, for writing, which counts as so many changes.
    pub fn content_mut(&mut self, file: u64, changes: u64) -> Option<&mut C>
        requires { 0 < changes → version_of (versions_of self.old) file + changes < 2 ^ 64 }
        ensures* writes_back { sem 𝓛 (lends_of C.row self.entry file changes result) }
        ensures value { option_copied_mut result ≡ content_at self.old file }
        ensures bytes { (bytes : C → Seq ℕ) → option_map bytes (option_copied_mut result) ≡ content_of (node_at (tree_by bytes self.old) file) }
        ensures refilled { (content : C) → OnSome result (IsRefilled self.old (with_content_at self.old file changes content) file changes content) }
    {
        self.nodes.content_mut(file, changes)
    }

    /// Gives a file another content, which counts as so many changes, and hands out the one that it had.
    pub fn replace(&mut self, file: u64, content: C, changes: u64) -> C
        requires file { (bytes : C → Seq ℕ) × (is_file (tree_by bytes self.old) file ≡ true) }
        requires few { version_of (versions_of self.old) file + changes < 2 ^ 64 }
        ensures was { Some result ≡ content_at self.old file }
        ensures bytes { (bytes : C → Seq ℕ) → bytes result ≡ bytes_of (tree_by bytes self.old) file }
        ensures refilled { IsRefilled self.old self.new file changes content }
        ensures spare { self.new.spare ≡ self.old.spare }
    {
        match self.content_mut(file, changes) {
            Some(place) => mem::replace(place, content),
            None => unreachable!(),
        }
    }

    /// The content of the node with the number, if there is one, counts as never changed.
    pub fn forget_version(&mut self, number: u64)
        ensures tree { (bytes : C → Seq ℕ) → tree_by bytes self.new ≡ tree_by bytes self.old }
        ensures versions { versions_of self.new ≡ without_version (versions_of self.old) number }
        ensures contents { KeepsContents self.old self.new }
        ensures spare { self.new.spare ≡ self.old.spare }
    {
        self.nodes.forget_version(number);
    }

    // The number of the directory that the node is in. The root is its own parent.
    fn parent_of(&self, number: u64) -> u64
        ensures { (bytes : C → Seq ℕ) → result ≡ parent_of (node_at (tree_by bytes self.now) number) }
    {
        match self.node(number) {
            Some(node) => node.parent(),
            None => ROOT,
        }
    }

    // Puts a node whose number is free at its place, or hands it back where its name is not. It takes no memory.
    #[inline(always)]
    fn put(&mut self, node: StoredNode<C>) -> Result<(), StoredNode<C>>
        requires spare { 0 < self.old.spare }
        requires number { now_at self.old.nodes node.number ≡ None }
        requires not_root { node.number ≢ root }
        ensures free { OnOk result ((bytes : C → Seq ℕ) → child_of (tree_by bytes self.old) node.parent node.name ≡ None) }
        ensures taken { OnErr result ((bytes : C → Seq ℕ) → is_some (child_of (tree_by bytes self.old) node.parent node.name) ≡ true) }
        ensures nodes { OnOk result (self.new.nodes ≡ with_now self.old.nodes node) }
        ensures spare { OnOk result (self.new.spare + 1 ≡ self.old.spare) }
        ensures unchanged { OnErr result (self.new ≡ self.old) }
        ensures given_back { IfErr result (λ back. back ≡ node) }
    {
        let number = node.number();
        let name = child_name(node.parent(), node.name());
        if let Err(_) = self.names.insert_new(name, number) {
            return Err(node);
        }
        self.nodes.insert(node);
        Ok(())
    }
}
