// What transactions that wait hold of the files.
ghost use Rattle.std.specs.Prelude.{◌≡◌, ◌+◌, ◌&&◌, ◌<◌, ◌≤◌, ◌∷◌, [], None, IfOk, IsOk, OnErr, OnOk, false, true, if◌then◌else◌, length, map};
ghost use Rattle.std.specs.List.{list_all, list_any};
ghost use Rattle.ktm_base.specs.declared.id.Id.{Id};
ghost use Rattle.ktm_world.specs.Changes.{applies, changes_apply, changes_bytes, is_make, node_of};
ghost use Rattle.ktm_world.specs.Durable.{are_recorded_changes};
ghost use Rattle.ktm_world.specs.Holds.{holds_by, opens};
ghost use Rattle.ktm_world.specs.Transactions.{same_id};
ghost use Rattle.ktm_world.specs.Tree.{IsWellFormed};
ghost use Rattle.txf_durable.specs.Recorded.{are_names};
ghost use Rattle.txf_durable.specs.Waiting.{is_met, HoldsChanges, HoldsNothing, KeepsOthers};
ghost use Rattle.txf_opens.specs.Acts.{act_of, HasShortNames};
ghost use Rattle.txf_overlay.specs.OverlayState.{seen};
ghost use Rattle.txf_overlay.specs.Views.{StandsOver};
ghost use Rattle.txf_reserve.specs.Checks.{is_number_held, meets_another};
ghost use Rattle.txf_reserve.specs.ReserveState.{holds_in, HoldsToo, IsSameHold};
ghost use Rattle.txf_tree.specs.TreeState.{tree_of};

use crate::acts::{act_over, held_by, writing};
use crate::files::DurableFiles;
use crate::recorded::split_at_bytes;
use crate::tried::lay;
use ktm_base::{Id, NoMemory};
use ktm_world::Change;
use std::alloc::Global;
use std::marker::Model;
use txf_opens::{Act, Opens};
use txf_overlay::Overlay;
use txf_reserve::Reserve;
use txf_tree::{Tree, is_make, node_of};

/// What transactions that wait hold of the files by their changes, while a log is read.
#[derive(Drop)]
pub struct Waiting {
    alloc: Global,
    reserve: Reserve,
    // None is ever open.
    opens: Opens,
}

impl Model for Waiting {
    ghost use Rattle.std.specs.Prelude.{◌≡◌, []};
    ghost use Rattle.txf_reserve.specs.ReserveState.{ReserveState};

    ghost Value = { ReserveState };

    ghost view = { λ w. w.reserve };

    ghost invariant = { λ w. w.opens.opens ≡ [] };
}

// The transaction holds too what a change holds that applies.
fn hold_change(
    reserve: &mut Reserve,
    transaction: Id,
    overlay: &Overlay,
    tree: &Tree,
    change: &Change,
)
    requires spare { 0 < reserve.old.spare }
    requires stands { StandsOver (tree_of tree.now) overlay.now }
    requires applies { applies (seen (tree_of tree.now) overlay.now) change.now ≡ true }
    ensures holds { HoldsChanges (seen (tree_of tree.now) overlay.now) (change.now ∷ []) transaction reserve.old reserve.new }
    ensures spare { reserve.old.spare ≤ reserve.new.spare + 1 }
{
    let act = act_over(tree, overlay, change);
    reserve.hold(transaction, &held_by(node_of(change), &act));
}

// The transaction holds too what changes of names hold, which are laid over the tree one after another.
fn hold_over(
    alloc: Global,
    reserve: &mut Reserve,
    transaction: Id,
    overlay: &mut Overlay,
    tree: &Tree,
    names: &[Change],
) -> Result<(), NoMemory>
    requires stands { StandsOver (tree_of tree.now) overlay.old }
    requires none { overlay.old.names ≡ [] }
    requires room { length names.now ≤ overlay.old.spare }
    requires spare { length names.now ≤ reserve.old.spare }
    requires names { are_names names.now ≡ true }
    requires apply { changes_apply (tree_of tree.now) names.now ≡ true }
    ensures holds { OnOk result (HoldsChanges (tree_of tree.now) names.now transaction reserve.old reserve.new) }
    ensures spare { OnOk result (reserve.old.spare ≤ reserve.new.spare + length names.now) }
    ensures others { OnErr result (KeepsOthers transaction reserve.old reserve.new) }
{
    for change in names {
        hold_change(reserve, transaction, overlay, tree, change);
        lay(alloc, overlay, tree, change)?;
    }
    Ok(())
}

// The transaction holds too what changes of names hold.
fn hold_names(
    alloc: Global,
    reserve: &mut Reserve,
    transaction: Id,
    tree: &Tree,
    names: &[Change],
) -> Result<(), NoMemory>
    requires formed { IsWellFormed (tree_of tree.now) }
    requires spare { length names.now ≤ reserve.old.spare }
    requires names { are_names names.now ≡ true }
    requires apply { changes_apply (tree_of tree.now) names.now ≡ true }
    ensures holds { OnOk result (HoldsChanges (tree_of tree.now) names.now transaction reserve.old reserve.new) }
    ensures spare { OnOk result (reserve.old.spare ≤ reserve.new.spare + length names.now) }
    ensures others { OnErr result (KeepsOthers transaction reserve.old reserve.new) }
{
    let mut overlay = Overlay::new(alloc);
    if let Err(NoMemory) = overlay.reserve(names.len()) {
        return Err(NoMemory);
    }
    hold_over(alloc, reserve, transaction, &mut overlay, tree, names)
}

// The transaction holds the files too whose bytes change.
fn hold_bytes(reserve: &mut Reserve, transaction: Id, bytes: &[Change])
    requires { length bytes.now ≤ reserve.old.spare }
    ensures { HoldsToo (map node_of bytes.now) [] [] false transaction reserve.old reserve.new }
{
    for change in bytes {
        let file = node_of(change);
        reserve.hold(transaction, &held_by(file, &writing(file)));
    }
}

// The transaction holds too what recorded changes hold.
fn hold_changes(
    alloc: Global,
    reserve: &mut Reserve,
    transaction: Id,
    tree: &Tree,
    changes: &[Change],
) -> Result<(), NoMemory>
    requires formed { IsWellFormed (tree_of tree.now) }
    requires recorded { are_recorded_changes changes.now ≡ true }
    requires apply { changes_apply (tree_of tree.now) changes.now ≡ true }
    ensures holds { OnOk result (HoldsChanges (tree_of tree.now) changes.now transaction reserve.old reserve.new) }
    ensures others { OnErr result (KeepsOthers transaction reserve.old reserve.new) }
{
    if let Err(NoMemory) = reserve.reserve(changes.len()) {
        return Err(NoMemory);
    }
    let (names, bytes) = split_at_bytes(changes);
    if let Err(NoMemory) = hold_names(alloc, reserve, transaction, tree, names) {
        return Err(NoMemory);
    }
    hold_bytes(reserve, transaction, bytes);
    Ok(())
}

#[tactic(auto, unfolding(crate::specs::Waiting::is_met))]
impl Waiting {
    /// Nothing is held.
    pub fn new(alloc: Global) -> Self
        ensures { (id : Id) → HoldsNothing result id }
    {
        Waiting {
            alloc,
            reserve: Reserve::new(alloc),
            opens: Opens::new(alloc),
        }
    }

    /// Does a change that applies meet what a transaction holds, or make a node that one made. It takes no memory.
    pub fn meets_one(&self, files: &DurableFiles, change: &Change) -> bool
        requires { applies (tree_of files.now.tree) change.now ≡ true }
        ensures { result ≡ is_met self.now None (tree_of files.now.tree) (change.now ∷ []) }
    {
        files.law_of_forms();
        let overlay = Overlay::new(self.alloc);
        self.meets_change(&overlay, files.tree(), None, change)
    }

    /// Do recorded changes that apply meet what another transaction holds, or make a node that another one made. It takes
    /// memory only where some of them make, move or drop a node.
    pub fn meets(
        &self,
        files: &DurableFiles,
        who: Option<Id>,
        changes: &[Change],
    ) -> Result<bool, NoMemory>
        requires recorded { are_recorded_changes changes.now ≡ true }
        requires apply { changes_apply (tree_of files.now.tree) changes.now ≡ true }
        ensures met { IfOk result (λ met. met ≡ is_met self.now who (tree_of files.now.tree) changes.now) }
        ensures enough { list_all changes_bytes changes.now ≡ true → IsOk result }
    {
        let (names, bytes) = split_at_bytes(changes);
        if self.meets_bytes(who, bytes) {
            return Ok(true);
        }
        files.law_of_forms();
        self.meets_names(files.tree(), who, names)
    }

    /// The transaction, which holds nothing, holds what its changes hold. Out of memory it may hold a part of it.
    pub fn hold(
        &mut self,
        files: &DurableFiles,
        transaction: Id,
        changes: &[Change],
    ) -> Result<(), NoMemory>
        requires recorded { are_recorded_changes changes.now ≡ true }
        requires apply { changes_apply (tree_of files.now.tree) changes.now ≡ true }
        requires none { HoldsNothing self.old transaction }
        ensures ok { OnOk result ((id : Id) → IsSameHold (holds_in self.new id) (if same_id id transaction then holds_by (tree_of files.now.tree) changes.now [] else holds_in self.old id)) }
        ensures err { OnErr result (KeepsOthers transaction self.old self.new) }
    {
        files.law_of_forms();
        hold_changes(
            self.alloc,
            &mut self.reserve,
            transaction,
            files.tree(),
            changes,
        )
    }

    /// The transaction holds nothing from now on.
    pub fn release(&mut self, transaction: Id)
        ensures { (id : Id) → IsSameHold (holds_in self.new id) (if same_id id transaction then holds_by [] [] [] else holds_in self.old id) }
    {
        self.reserve.release(transaction);
    }

    // Does what a change does meet what another transaction holds.
    fn meets_act(&self, who: Option<Id>, act: &Act) -> bool
        requires { HasShortNames act.now }
        ensures { result ≡ meets_another self.now [] who (act_of act.now) }
    {
        self.reserve.meets(&self.opens, who, act)
    }

    // Does the change make a node that another transaction holds.
    fn makes_held(&self, who: Option<Id>, change: &Change) -> bool
        ensures { result ≡ (is_make change.now && is_number_held who self.now.nodes (node_of change.now)) }
    {
        is_make(change) && self.reserve.is_node_held(who, node_of(change))
    }

    // Does a change that applies meet what another transaction holds, or make a node that another one made.
    fn meets_change(&self, overlay: &Overlay, tree: &Tree, who: Option<Id>, change: &Change) -> bool
        requires stands { StandsOver (tree_of tree.now) overlay.now }
        requires applies { applies (seen (tree_of tree.now) overlay.now) change.now ≡ true }
        ensures { result ≡ is_met self.now who (seen (tree_of tree.now) overlay.now) (change.now ∷ []) }
    {
        self.meets_act(who, &act_over(tree, overlay, change)) || self.makes_held(who, change)
    }

    // Does a change of names, over the tree as those before it leave it, meet what another holds, or make a node that another made.
    fn meets_over(
        &self,
        overlay: &mut Overlay,
        tree: &Tree,
        who: Option<Id>,
        names: &[Change],
    ) -> Result<bool, NoMemory>
        requires stands { StandsOver (tree_of tree.now) overlay.old }
        requires room { length names.now ≤ overlay.old.spare }
        requires names { are_names names.now ≡ true }
        requires apply { changes_apply (seen (tree_of tree.now) overlay.old) names.now ≡ true }
        ensures met { IfOk result (λ met. met ≡ is_met self.now who (seen (tree_of tree.now) overlay.old) names.now) }
        ensures enough { names.now ≡ [] → IsOk result }
    {
        for change in names {
            if self.meets_change(overlay, tree, who, change) {
                return Ok(true);
            }
            lay(self.alloc, overlay, tree, change)?;
        }
        Ok(false)
    }

    // Does one of the changes of names meet what another transaction holds, or make a node that another one made.
    fn meets_names(&self, tree: &Tree, who: Option<Id>, names: &[Change]) -> Result<bool, NoMemory>
        requires formed { IsWellFormed (tree_of tree.now) }
        requires names { are_names names.now ≡ true }
        requires apply { changes_apply (tree_of tree.now) names.now ≡ true }
        ensures met { IfOk result (λ met. met ≡ is_met self.now who (tree_of tree.now) names.now) }
        ensures enough { names.now ≡ [] → IsOk result }
    {
        let mut overlay = Overlay::new(self.alloc);
        if let Err(NoMemory) = overlay.reserve(names.len()) {
            return Err(NoMemory);
        }
        self.meets_over(&mut overlay, tree, who, names)
    }

    // Does another transaction hold one of the files whose bytes change.
    fn meets_bytes(&self, who: Option<Id>, bytes: &[Change]) -> bool
        ensures { result ≡ list_any (λ change. meets_another self.now [] who (opens (node_of change) true)) bytes.now }
    {
        bytes
            .iter()
            .any(|change| self.meets_writing(who, node_of(change)))
    }

    fn meets_writing(&self, who: Option<Id>, file: u64) -> bool
        ensures { result ≡ meets_another self.now [] who (opens file true) }
    {
        self.meets_act(who, &writing(file))
    }
}
