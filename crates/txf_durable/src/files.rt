// The committed files while a log is read.
ghost use Rattle.std.specs.Prelude.{◌≡◌, ℕ, ◌+◌, ◌&&◌, ◌<◌, ◌≤◌, ◌^◌, [], ◌∷◌, true, length, max, sum_by, Ok, IfOk, IsOk};
ghost use Rattle.ktm_world.specs.declared.change.Change.TheVariants.{Make};
ghost use Rattle.std.specs.List.{list_all};
ghost use Rattle.ktm_world.specs.Changes.{applies, changes_apply, changes_bytes, changed_all, next_after};
ghost use Rattle.ktm_world.specs.Durable.{are_recorded_changes, is_new_in, next_after_all};
ghost use Rattle.ktm_world.specs.Tree.{IsWellFormed, bytes_of, bytes_or_none, units_of};
ghost use Rattle.txf_tree.specs.TreeState.{fits, tree_of, versions_of, KeepsRooms};
ghost use Rattle.txf_tree.specs.UnitChanges.{CanAllBeMade, CanBeMade};
ghost use Rattle.txf_durable.specs.State.{AreSound, CanMake, CanMakeAll, IsCounted, IsMade};

use crate::recorded::split_at_bytes;
use crate::tried::{next_after_all, would_apply};
use ktm_base::{NoMemory, Text, UNIT_BYTES};
use ktm_world::{Change, NodeKind};
use std::alloc::Global;
use std::marker::Model;
use txf_laws::law_of_forms;
use txf_tree::{Tree, is_make, next_after, node_of};

/// How many units there may be before a change, which adds no more than 2^52.
const MOST_COUNTED: u64 = u64::MAX - (1 << 52);

/// The number of the first node that is made.
const FIRST_NODE: u64 = 2;

/// The committed files that the log of an image comes to, as far as it was read.
#[derive(Drop)]
pub struct DurableFiles {
    tree: Tree,
    // The units of all files.
    units: u64,
    next_node: u64,
}

impl Model for DurableFiles {
    ghost use Rattle.txf_durable.specs.State.{DurableFilesState};

    ghost Value = { DurableFilesState };

    ghost view = { λ f. record { tree = f.tree; next_node = f.next_node } };

    ghost use Rattle.txf_durable.specs.State.{AreSound};

    ghost invariant = { λ f. AreSound f.tree f.units };
}

/// What a log came to.
#[derive(Drop)]
pub struct FilesRead {
    pub tree: Tree,
    /// The units of all files.
    pub units: u64,
    /// The number of the next node.
    pub next_node: u64,
}

// The units of a file.
fn units_at(tree: &Tree, file: u64) -> u64
    ensures units { result ≡ units_of (bytes_of (tree_of tree.now) file) }
    ensures few { result ≤ 2 ^ 52 }
{
    tree.size(file).div_ceil(UNIT_BYTES)
}

// Takes the memory that a change needs if it applies, where there are few enough units, and tells whether it applies.
fn prepare(tree: &mut Tree, units: u64, change: &Change) -> Result<bool, NoMemory>
    ensures applies { IfOk result (λ is. is ≡ applies (tree_of tree.old) change.now) }
    ensures fits { result ≡ Ok true → fits tree.new change.now ≡ true }
    ensures few { result ≡ Ok true → units + 2 ^ 52 < 2 ^ 64 }
    ensures enough { fits tree.old change.now ≡ true → units + 2 ^ 52 < 2 ^ 64 → IsOk result }
    ensures tree { tree_of tree.new ≡ tree_of tree.old }
    ensures versions { versions_of tree.new ≡ versions_of tree.old }
    ensures rooms { KeepsRooms tree.old tree.new }
    ensures spare { tree.old.spare ≤ tree.new.spare }
{
    if !tree.applies(change) {
        return Ok(false);
    }
    if units > MOST_COUNTED {
        return Err(NoMemory);
    }
    tree.prepare(change)?;
    Ok(true)
}

// Makes a change for which the memory is there, and tells how many units there are then.
fn restore(tree: &mut Tree, units: u64, change: Change) -> u64
    requires applies { applies (tree_of tree.old) change ≡ true }
    requires units { CanBeMade (tree_of tree.old) change }
    requires fits { fits tree.old change ≡ true }
    requires counted { IsCounted tree.old units }
    requires few { units + 2 ^ 52 < 2 ^ 64 }
    ensures made { IsMade tree.old tree.new change }
    ensures counted { IsCounted tree.new result }
{
    let node = node_of(&change);
    tree.law_of_numbers();
    let others = units - units_at(tree, node);
    tree.restore(change);
    tree.law_of_numbers();
    others + units_at(tree, node)
}

// Makes a node if that applies, and tells whether it does. It takes the memory for one, and has no units.
fn make_node(
    tree: &mut Tree,
    node: u64,
    parent: u64,
    kind: NodeKind,
    name: Text,
) -> Result<bool, NoMemory>
    ensures applies { IfOk result (λ done. done ≡ applies (tree_of tree.old) (Make node parent kind name)) }
    ensures made { result ≡ Ok true → IsMade tree.old tree.new (Make node parent kind name) }
    ensures few { result ≡ Ok true → node < 2 ^ 63 }
    ensures sound { (units : ℕ) → AreSound tree.old units → AreSound tree.new units }
    ensures enough { 0 < tree.old.spare → IsOk result }
{
    law_of_forms();
    if let Err(NoMemory) = tree.reserve(1) {
        return Err(NoMemory);
    }
    Ok(tree.make_new(node, parent, kind, name))
}

impl DurableFiles {
    /// No files.
    pub fn new(alloc: Global) -> Self
        ensures tree { tree_of result.tree ≡ [] }
        ensures next_node { result.next_node ≡ 2 }
    {
        DurableFiles {
            tree: Tree::new(alloc),
            units: 0,
            next_node: FIRST_NODE,
        }
    }

    /// The files and directories.
    pub fn tree(&self) -> &Tree
        ensures { result.now ≡ self.now.tree }
    {
        &self.tree
    }

    /// The files are well formed.
    pub fn law_of_forms(&self)
        ensures { IsWellFormed (tree_of self.now.tree) }
    {
        let _ = &self.tree;
    }

    /// How many nodes there are beside the root.
    pub fn nodes(&self) -> usize
        ensures { result ≡ length (tree_of self.now.tree) }
    {
        self.tree.len()
    }

    /// The units of all files.
    pub fn units(&self) -> u64
        ensures { result ≡ sum_by (λ node. units_of (bytes_or_none node.content)) (tree_of self.now.tree) }
    {
        self.units
    }

    /// The number of the next node.
    pub fn next_node(&self) -> u64
        ensures { result ≡ self.now.next_node }
    {
        self.next_node
    }

    /// Makes changes in order, if they apply and none of them makes a node that is there before the first, and tells whether
    /// that is so. Contents change unit by unit. It fails where it is out of memory, and where the files have nearly 2^64 units. Where not all changes were made
    /// the files are of no use, since some of them may have been.
    pub fn commit(&mut self, changes: Vec<Change>) -> Result<bool, NoMemory>
        requires { CanAllBeMade (tree_of self.old.tree) changes.items }
        ensures applies { IfOk result (λ all. all ≡ (changes_apply (tree_of self.old.tree) changes.items && list_all (is_new_in (tree_of self.old.tree)) changes.items)) }
        ensures after { result ≡ Ok true → (tree_of self.new.tree ≡ changed_all (tree_of self.old.tree) changes.items) × (self.new.next_node ≡ next_after_all self.old.next_node changes.items) }
        ensures enough { CanMakeAll self.old.tree changes.items → IsOk result }
    {
        if !self.are_new(&changes) {
            return Ok(false);
        }
        for change in changes {
            if !self.make(change)? {
                return Ok(false);
            }
        }
        Ok(true)
    }

    /// Makes one change, if it applies and makes no node that is there, and tells whether that is so. It fails where `commit` does.
    pub fn commit_one(&mut self, change: Change) -> Result<bool, NoMemory>
        requires { CanBeMade (tree_of self.old.tree) change }
        ensures applies { IfOk result (λ done. done ≡ (changes_apply (tree_of self.old.tree) (change ∷ []) && list_all (is_new_in (tree_of self.old.tree)) (change ∷ []))) }
        ensures after { result ≡ Ok true → (tree_of self.new.tree ≡ changed_all (tree_of self.old.tree) (change ∷ [])) × (self.new.next_node ≡ next_after_all self.old.next_node (change ∷ [])) }
        ensures enough { CanMake self.old.tree change → IsOk result }
    {
        self.make(change)
    }

    /// Would changes apply in order that have the form in which a transaction records them, and does none of them make a node that
    /// is there. None is made. It takes memory only where some of them make, move or drop a node.
    pub fn would_apply(&self, alloc: Global, changes: &[Change]) -> Result<bool, NoMemory>
        requires { are_recorded_changes changes.now ≡ true }
        ensures applies { IfOk result (λ all. all ≡ (changes_apply (tree_of self.now.tree) changes.now && list_all (is_new_in (tree_of self.now.tree)) changes.now)) }
        ensures enough { list_all changes_bytes changes.now ≡ true → IsOk result }
    {
        let (names, bytes) = split_at_bytes(changes);
        let apply = would_apply(alloc, &self.tree, names, bytes)?;
        Ok(apply && self.are_new(changes))
    }

    /// The nodes that these changes make have their numbers from now on: the next node comes behind them.
    pub fn give_numbers(&mut self, changes: &[Change])
        requires { changes_apply (tree_of self.old.tree) changes.now ≡ true }
        ensures tree { self.new.tree ≡ self.old.tree }
        ensures next_node { self.new.next_node ≡ next_after_all self.old.next_node changes.now }
    {
        self.next_node = next_after_all(self.next_node, changes);
    }

    /// The next node comes behind numbers that were given before, too: its number is this one, which is not below the present one.
    pub fn raise_next(&mut self, next: u64)
        requires { self.old.next_node ≤ next }
        ensures tree { self.new.tree ≡ self.old.tree }
        ensures next_node { self.new.next_node ≡ next }
    {
        self.next_node = next;
    }

    /// Hands out what the log came to. The bytes of no file were changed since.
    pub fn into_parts(self) -> FilesRead
        ensures tree { tree_of result.tree ≡ tree_of self.tree }
        ensures versions { versions_of result.tree ≡ [] }
        ensures units { result.units ≡ sum_by (λ node. units_of (bytes_or_none node.content)) (tree_of self.tree) }
        ensures next_node { result.next_node ≡ self.next_node }
    {
        let DurableFiles {
            tree,
            units,
            next_node,
        } = self;
        FilesRead {
            tree,
            units,
            next_node,
        }
    }

    // Does the change make no node that is there.
    fn is_new(&self, change: &Change) -> bool
        ensures { result ≡ is_new_in (tree_of self.now.tree) change.now }
    {
        !is_make(change) || self.tree.node(node_of(change)).is_none()
    }

    fn are_new(&self, changes: &[Change]) -> bool
        ensures { result ≡ list_all (is_new_in (tree_of self.now.tree)) changes.now }
    {
        changes.iter().all(|change| self.is_new(change))
    }

    // Makes a node if that applies, and tells whether it does.
    fn make_node(
        &mut self,
        node: u64,
        parent: u64,
        kind: NodeKind,
        name: Text,
    ) -> Result<bool, NoMemory>
        ensures applies { IfOk result (λ done. done ≡ applies (tree_of self.old.tree) (Make node parent kind name)) }
        ensures after { result ≡ Ok true → IsMade self.old.tree self.new.tree (Make node parent kind name) × (self.new.next_node ≡ max self.old.next_node (node + 1)) }
        ensures enough { 0 < self.old.tree.spare → IsOk result }
    {
        let made = make_node(&mut self.tree, node, parent, kind, name);
        if let Ok(true) = made {
            self.next_node = self.next_node.max(node + 1);
        }
        made
    }

    // Makes a change if it applies, counts what it adds to the units and takes from them, and tells whether it applies.
    fn make_counted(&mut self, change: Change) -> Result<bool, NoMemory>
        requires { CanBeMade (tree_of self.old.tree) change }
        ensures applies { IfOk result (λ done. done ≡ applies (tree_of self.old.tree) change) }
        ensures after { result ≡ Ok true → IsMade self.old.tree self.new.tree change × (self.new.next_node ≡ next_after self.old.next_node change) }
        ensures enough { CanMake self.old.tree change → IsOk result }
    {
        let prepared = prepare(&mut self.tree, self.units, &change);
        if let Ok(true) = prepared {
            law_of_forms();
            self.next_node = next_after(self.next_node, &change);
            self.units = restore(&mut self.tree, self.units, change);
        }
        prepared
    }

    // Makes a change if it applies, and tells whether it does.
    #[inline(always)]
    fn make(&mut self, change: Change) -> Result<bool, NoMemory>
        requires { CanBeMade (tree_of self.old.tree) change }
        ensures applies { IfOk result (λ done. done ≡ applies (tree_of self.old.tree) change) }
        ensures after { result ≡ Ok true → IsMade self.old.tree self.new.tree change × (self.new.next_node ≡ next_after self.old.next_node change) }
        ensures enough { CanMake self.old.tree change → IsOk result }
    {
        match change {
            Change::Make {
                node,
                parent,
                kind,
                name,
            } => self.make_node(node, parent, kind, name),
            other => self.make_counted(other),
        }
    }
}
