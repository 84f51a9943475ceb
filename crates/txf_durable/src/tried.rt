// Changes that are tried over the files, and not made.
ghost use Rattle.std.specs.Prelude.{◌≡◌, ◌+◌, ◌<◌, ◌≤◌, ◌++◌, ◌∷◌, [], false, true, length, Ok, IfOk, IsOk, OnOk};
ghost use Rattle.std.specs.List.{list_all};
ghost use Rattle.ktm_world.specs.Changes.{applies, changes_apply, changes_bytes};
ghost use Rattle.ktm_world.specs.Durable.{next_after_all};
ghost use Rattle.ktm_world.specs.Tree.{Tree as Nodes, IsWellFormed};
ghost use Rattle.txf_durable.specs.Recorded.{are_names};
ghost use Rattle.txf_overlay.specs.OverlayState.{seen};
ghost use Rattle.txf_overlay.specs.Views.{StandsOver};
ghost use Rattle.txf_tree.specs.TreeState.{tree_of};

use ktm_base::NoMemory;
use ktm_world::Change;
use std::alloc::Global;
use txf_laws::law_of_forms;
use txf_overlay::Overlay;
use txf_tree::{Tree, next_after};

/// Lays a change of names over the tree, to which it applies with those before it. A name is copied.
pub(crate) fn lay(
    alloc: Global,
    overlay: &mut Overlay,
    tree: &Tree,
    change: &Change,
) -> Result<(), NoMemory>
    requires stands { StandsOver (tree_of tree.now) overlay.old }
    requires spare { 0 < overlay.old.spare }
    requires name { changes_bytes change.now ≡ false }
    requires applies { applies (seen (tree_of tree.now) overlay.old) change.now ≡ true }
    ensures names { OnOk result (overlay.new.names ≡ overlay.old.names ++ change.now ∷ []) }
    ensures stands { OnOk result (StandsOver (tree_of tree.now) overlay.new) }
    ensures spare { overlay.old.spare ≤ overlay.new.spare + 1 }
{
    law_of_forms();
    match change {
        Change::Make {
            node,
            parent,
            kind,
            name,
        } => overlay.make(*node, *parent, *kind, name.copy(alloc)?),
        Change::Move { node, parent, name } => {
            overlay.move_to(tree, *node, *parent, name.copy(alloc)?);
        }
        Change::Drop { node } => overlay.remove(tree, *node),
        Change::Put { .. } | Change::Cut { .. } => unreachable!(),
    }
    Ok(())
}

// Lays changes of names over the tree, as long as they apply, and tells whether all do.
fn lay_all(
    alloc: Global,
    overlay: &mut Overlay,
    tree: &Tree,
    names: &[Change],
) -> Result<bool, NoMemory>
    requires stands { StandsOver (tree_of tree.now) overlay.old }
    requires none { overlay.old.names ≡ [] }
    requires spare { length names.now ≤ overlay.old.spare }
    requires names { are_names names.now ≡ true }
    ensures applies { IfOk result (λ all. all ≡ changes_apply (tree_of tree.now) names.now) }
    ensures names { result ≡ Ok true → overlay.new.names ≡ names.now }
    ensures stands { result ≡ Ok true → StandsOver (tree_of tree.now) overlay.new }
    ensures enough { names.now ≡ [] → IsOk result }
{
    for change in names {
        if !overlay.applies(tree, change) {
            return Ok(false);
        }
        lay(alloc, overlay, tree, change)?;
    }
    Ok(true)
}

// Does each of the changes apply to the tree with those that are laid over it.
fn all_apply(overlay: &Overlay, tree: &Tree, changes: &[Change]) -> bool
    requires { StandsOver (tree_of tree.now) overlay.now }
    ensures { result ≡ list_all (applies (seen (tree_of tree.now) overlay.now)) changes.now }
{
    changes.iter().all(|change| overlay.applies(tree, change))
}

// Do names, and bytes behind them, apply to the tree, over which nothing is laid yet.
fn apply_over(
    alloc: Global,
    overlay: &mut Overlay,
    tree: &Tree,
    names: &[Change],
    bytes: &[Change],
) -> Result<bool, NoMemory>
    requires formed { IsWellFormed (tree_of tree.now) }
    requires none { overlay.old.names ≡ [] }
    requires free { overlay.old.held ≡ [] }
    requires names { are_names names.now ≡ true }
    requires bytes { list_all changes_bytes bytes.now ≡ true }
    ensures applies { IfOk result (λ all. all ≡ changes_apply (tree_of tree.now) (names.now ++ bytes.now)) }
    ensures enough { names.now ≡ [] → IsOk result }
{
    overlay.reserve(names.len())?;
    if !lay_all(alloc, overlay, tree, names)? {
        return Ok(false);
    }
    Ok(all_apply(overlay, tree, bytes))
}

/// Would changes of names, and changes of bytes behind them, apply to the tree. Names are copied.
pub(crate) fn would_apply(
    alloc: Global,
    tree: &Tree,
    names: &[Change],
    bytes: &[Change],
) -> Result<bool, NoMemory>
    requires formed { IsWellFormed (tree_of tree.now) }
    requires names { are_names names.now ≡ true }
    requires bytes { list_all changes_bytes bytes.now ≡ true }
    ensures applies { IfOk result (λ all. all ≡ changes_apply (tree_of tree.now) (names.now ++ bytes.now)) }
    ensures enough { names.now ≡ [] → IsOk result }
{
    let mut overlay = Overlay::new(alloc);
    apply_over(alloc, &mut overlay, tree, names, bytes)
}

// The number of the next node, once the changes have made theirs.
pub(crate) fn next_after_all(next: u64, changes: &[Change]) -> u64
    requires { (tree : Nodes) × (changes_apply tree changes.now ≡ true) }
    ensures { result ≡ next_after_all next changes.now }
{
    let mut next = next;
    for change in changes {
        next = next_after(next, change);
    }
    next
}
