// One change more of a transaction, in what it changed and in what it holds.
ghost use Rattle.std.specs.Prelude.{◌≡◌, ℕ, ◌<◌, ◌+◌, ◌^◌, ◌≤◌, List, [], ◌∷◌, All, IfOk, IsOk, None, Some, OnOk, OnErr, is_some, length, map, true, if◌then◌else◌};
ghost use Rattle.ktm_world.specs.declared.recorded.Node.{Node};
ghost use Rattle.ktm_world.specs.declared.change.Change.TheVariants.{Make, Put, Cut, Move, Drop};
ghost use Rattle.ktm_world.specs.Changes.{applies, bytes_in, changed};
ghost use Rattle.ktm_world.specs.Tree.{Tree as Nodes, IsWellFormed, node_at};
ghost use Rattle.txf_overlay.specs.OverlayState.{seen};
ghost use Rattle.txf_overlay.specs.Views.{StandsOver};
ghost use Rattle.txf_overlay.specs.Written.{total_units, HasBytes};
ghost use Rattle.txf_reserve.specs.Acts.{listed};
ghost use Rattle.txf_tree.specs.TreeState.{tree_of};
ghost use Rattle.txf_tree.specs.UnitChanges.{CanBeMadeOver};
ghost use Rattle.txf_volume.specs.Held.{overlay_in};
ghost use Rattle.txf_volume.specs.OwnParts.{bare, bare_own, bytes_over, counts_of, owners, starts, unchanged, written_next, CanChange, IsChanged, IsChangedIn, IsCounted, IsPlace};
ghost use Rattle.txf_volume.specs.Transacted.{CanAdd, IsWithin};

use crate::counts::{Counted, Counts};
use crate::holding::{hold_dropped, hold_file, hold_made, hold_moved};
use crate::own::{Overlays, Own};
use ktm_base::{Id, NoMemory, Text};
use ktm_content::PlacedRef;
use ktm_world::{Change, Contents, NodeKind};
use txf_durable::{is_file_seen, place_seen};
use txf_laws::law_of_forms;
use txf_opens::Place;
use txf_overlay::Overlay;
use txf_reserve::Reserve;
use txf_tree::{Tree, bytes_in};

// The bytes from which changes of a file start.
fn starts<'a>(overlay: &Overlay, fixed: PlacedRef<'a>, file: u64) -> PlacedRef<'a>
    ensures { result ≡ starts overlay.now fixed.entry file }
{
    if overlay.has_made(file) {
        PlacedRef::none()
    } else {
        fixed
    }
}

// Puts bytes of a file, which then is held.
fn put(
    reserve: &mut Reserve,
    overlay: &mut Overlay,
    transaction: Id,
    fixed: PlacedRef<'_>,
    node: u64,
    offset: u64,
    contents: &Contents,
) -> Result<(), NoMemory>
    requires spare { 0 < reserve.old.spare }
    requires units { CanBeMadeOver (bytes_over overlay.old fixed) (Put node offset contents.now) }
    requires few { total_units (written_next overlay.old fixed (Put node offset contents.now)) < 2 ^ 64 }
    ensures ok { OnOk result ((tree : Nodes) → StandsOver tree overlay.old → IsChanged tree fixed.entry transaction (Put node offset contents.now) overlay.old overlay.new reserve.old reserve.new) }
    ensures err { OnErr result (bare overlay.new ≡ bare overlay.old) }
    ensures same { OnErr result (reserve.new ≡ reserve.old) }
    ensures enough { HasBytes overlay.old.written node (offset + length (bytes_in contents.now)) → IsOk result }
{
    let first = starts(overlay, fixed, node);
    if let Err(NoMemory) = overlay.put(node, first, offset, bytes_in(contents)) {
        return Err(NoMemory);
    }
    hold_file(reserve, transaction, node);
    Ok(())
}

// Leaves so many bytes of a file, which then is held.
fn cut(
    reserve: &mut Reserve,
    overlay: &mut Overlay,
    transaction: Id,
    fixed: PlacedRef<'_>,
    node: u64,
    size: u64,
) -> Result<(), NoMemory>
    requires spare { 0 < reserve.old.spare }
    requires shorter { size ≤ length (bytes_over overlay.old fixed node) }
    requires few { (pages : List ℕ) → total_units (written_next overlay.old fixed (Cut node size pages)) < 2 ^ 64 }
    ensures ok { OnOk result ((tree : Nodes) (pages : List ℕ) → StandsOver tree overlay.old → IsChanged tree fixed.entry transaction (Cut node size pages) overlay.old overlay.new reserve.old reserve.new) }
    ensures err { OnErr result (bare overlay.new ≡ bare overlay.old) }
    ensures same { OnErr result (reserve.new ≡ reserve.old) }
    ensures enough { HasBytes overlay.old.written node size → IsOk result }
{
    let first = starts(overlay, fixed, node);
    if let Err(NoMemory) = overlay.cut(node, first, size) {
        return Err(NoMemory);
    }
    hold_file(reserve, transaction, node);
    Ok(())
}

// Makes a node, which then is held with its name.
fn make(
    reserve: &mut Reserve,
    overlay: &mut Overlay,
    transaction: Id,
    node: u64,
    parent: u64,
    kind: NodeKind,
    name: Text,
)
    requires spare { 0 < reserve.old.spare }
    requires room { 0 < overlay.old.spare }
    requires applies { (tree : Nodes) × StandsOver tree overlay.old × (applies (seen tree overlay.old) (Make node parent kind name) ≡ true) }
    ensures { (tree : Nodes) (fixed : List ℕ) → StandsOver tree overlay.old → applies (seen tree overlay.old) (Make node parent kind name) ≡ true → IsWellFormed (changed (seen tree overlay.old) (Make node parent kind name)) → IsChanged tree fixed transaction (Make node parent kind name) overlay.old overlay.new reserve.old reserve.new }
{
    let at = Place {
        directory: parent,
        name: name.as_slice(),
    };
    hold_made(reserve, transaction, node, at);
    overlay.make(node, parent, kind, name);
}

// Moves a node, which then is held with both names.
fn move_to(
    tree: &Tree,
    reserve: &mut Reserve,
    overlay: &mut Overlay,
    transaction: Id,
    node: u64,
    parent: u64,
    name: Text,
)
    requires spare { 0 < reserve.old.spare }
    requires room { 0 < overlay.old.spare }
    requires stands { StandsOver (tree_of tree.now) overlay.old }
    requires applies { applies (seen (tree_of tree.now) overlay.old) (Move node parent name) ≡ true }
    ensures { (fixed : List ℕ) → IsWellFormed (changed (seen (tree_of tree.now) overlay.old) (Move node parent name)) → IsChanged (tree_of tree.now) fixed transaction (Move node parent name) overlay.old overlay.new reserve.old reserve.new }
{
    let from = place_seen(tree, overlay, node);
    let to = Place {
        directory: parent,
        name: name.as_slice(),
    };
    let is_directory = !is_file_seen(tree, overlay, node);
    hold_moved(reserve, transaction, node, from, to, is_directory);
    overlay.move_to(tree, node, parent, name);
}

// The node, where it is a directory.
fn if_directory(tree: &Tree, overlay: &Overlay, node: u64) -> Option<u64>
    requires { StandsOver (tree_of tree.now) overlay.now }
    ensures { (x : Node) → node_at (seen (tree_of tree.now) overlay.now) node ≡ Some x → listed result ≡ (if is_some x.content then [] else node ∷ []) }
{
    if is_file_seen(tree, overlay, node) {
        None
    } else {
        Some(node)
    }
}

// Drops a node, which then is held with its name.
fn remove(tree: &Tree, reserve: &mut Reserve, overlay: &mut Overlay, transaction: Id, node: u64)
    requires spare { 0 < reserve.old.spare }
    requires room { 0 < overlay.old.spare }
    requires stands { StandsOver (tree_of tree.now) overlay.old }
    requires applies { applies (seen (tree_of tree.now) overlay.old) (Drop node) ≡ true }
    ensures { (fixed : List ℕ) → IsWellFormed (changed (seen (tree_of tree.now) overlay.old) (Drop node)) → IsChanged (tree_of tree.now) fixed transaction (Drop node) overlay.old overlay.new reserve.old reserve.new }
{
    let at = place_seen(tree, overlay, node);
    let dropped = if_directory(tree, overlay, node);
    hold_dropped(reserve, transaction, node, at, dropped);
    overlay.remove(tree, node);
}

// Makes a change, for which there is room, and holds what it holds.
fn change_overlay(
    tree: &Tree,
    reserve: &mut Reserve,
    overlay: &mut Overlay,
    transaction: Id,
    fixed: PlacedRef<'_>,
    change: Change,
) -> Result<(), NoMemory>
    requires spare { 0 < reserve.old.spare }
    requires room { 0 < overlay.old.spare }
    requires stands { StandsOver (tree_of tree.now) overlay.old }
    requires applies { applies (seen (tree_of tree.now) overlay.old) change ≡ true }
    requires units { CanBeMadeOver (bytes_over overlay.old fixed) change }
    requires few { total_units (written_next overlay.old fixed change) < 2 ^ 64 }
    ensures ok { OnOk result (IsChanged (tree_of tree.now) fixed.entry transaction change overlay.old overlay.new reserve.old reserve.new) }
    ensures err { OnErr result (bare overlay.new ≡ bare overlay.old) }
    ensures same { OnErr result (reserve.new ≡ reserve.old) }
    ensures enough { IsWithin (Some overlay.old) change → IsOk result }
{
    law_of_forms();
    match change {
        Change::Make {
            node,
            parent,
            kind,
            name,
        } => {
            make(reserve, overlay, transaction, node, parent, kind, name);
            Ok(())
        }
        Change::Put {
            node,
            offset,
            contents,
        } => put(
            reserve,
            overlay,
            transaction,
            fixed,
            node,
            offset,
            &contents,
        ),
        Change::Cut { node, size, .. } => { cut(reserve, overlay, transaction, fixed, node, size) }
        Change::Move { node, parent, name } => {
            move_to(tree, reserve, overlay, transaction, node, parent, name);
            Ok(())
        }
        Change::Drop { node } => {
            remove(tree, reserve, overlay, transaction, node);
            Ok(())
        }
    }
}

// Makes room for a change, then makes it, counts, and holds what it holds.
fn make_room_and_change(
    tree: &Tree,
    reserve: &mut Reserve,
    overlay: &mut Overlay,
    transaction: Id,
    fixed: PlacedRef<'_>,
    change: Change,
) -> Result<Counted, NoMemory>
    requires spare { 0 < reserve.old.spare }
    requires stands { StandsOver (tree_of tree.now) overlay.old }
    requires applies { applies (seen (tree_of tree.now) overlay.old) change ≡ true }
    requires units { CanBeMadeOver (bytes_over overlay.old fixed) change }
    requires few { total_units (written_next overlay.old fixed change) < 2 ^ 64 }
    ensures ok { OnOk result (IsChanged (tree_of tree.now) fixed.entry transaction change overlay.old overlay.new reserve.old reserve.new) }
    ensures err { OnErr result (bare overlay.new ≡ bare overlay.old) }
    ensures same { OnErr result (reserve.new ≡ reserve.old) }
    ensures before { IfOk result (λ counted. counted.before ≡ counts_of overlay.old) }
    ensures after { IfOk result (λ counted. counted.after ≡ counts_of overlay.new) }
    ensures enough { 1 ≤ overlay.old.spare → IsWithin (Some overlay.old) change → IsOk result }
{
    let before = Counts::of(overlay);
    if let Err(NoMemory) = overlay.reserve(1) {
        return Err(NoMemory);
    }
    if let Err(NoMemory) = change_overlay(tree, reserve, overlay, transaction, fixed, change) {
        return Err(NoMemory);
    }
    Ok(Counted {
        before,
        after: Counts::of(overlay),
    })
}

// Makes a change of a transaction whose changes are at this place.
fn change_at(
    tree: &Tree,
    reserve: &mut Reserve,
    entries: &mut Vec<Own>,
    place: usize,
    transaction: Id,
    fixed: PlacedRef<'_>,
    change: Change,
) -> Result<Counted, NoMemory>
    requires spare { 0 < reserve.old.spare }
    requires place { IsPlace entries.old.items transaction place }
    requires can { CanChange (tree_of tree.now) fixed transaction change entries.old.items }
    ensures ok { OnOk result (IsChangedIn (tree_of tree.now) fixed.entry transaction change entries.old.items entries.new.items reserve.old reserve.new) }
    ensures counted { IfOk result (IsCounted entries.old.items entries.new.items transaction) }
    ensures err { OnErr result (map bare_own entries.new.items ≡ map bare_own entries.old.items) }
    ensures same { OnErr result (reserve.new ≡ reserve.old) }
    ensures owners { owners entries.new.items ≡ owners entries.old.items }
    ensures enough { CanAdd entries.old.items transaction change → IsOk result }
{
    let overlay = &mut entries[place].overlay;
    make_room_and_change(tree, reserve, overlay, transaction, fixed, change)
}

impl Overlays {
    // Makes the first change of a transaction.
    fn change_first(
        &mut self,
        tree: &Tree,
        reserve: &mut Reserve,
        transaction: Id,
        fixed: PlacedRef<'_>,
        change: Change,
    ) -> Result<Counted, NoMemory>
        requires spare { 0 < reserve.old.spare }
        requires first { overlay_in self.old transaction ≡ None }
        requires formed { IsWellFormed (tree_of tree.now) }
        requires applies { applies (tree_of tree.now) change ≡ true }
        requires units { CanBeMadeOver (bytes_over unchanged fixed) change }
        requires few { total_units (written_next unchanged fixed change) < 2 ^ 64 }
        ensures ok { OnOk result (IsChangedIn (tree_of tree.now) fixed.entry transaction change self.old self.new reserve.old reserve.new) }
        ensures counted { IfOk result (IsCounted self.old self.new transaction) }
        ensures err { OnErr result (self.new ≡ self.old) }
        ensures same { OnErr result (reserve.new ≡ reserve.old) }
    {
        if let Err(_) = self.entries.reserve(1) {
            return Err(NoMemory);
        }
        if let Err(NoMemory) = self.places.reserve() {
            return Err(NoMemory);
        }
        let mut overlay = Overlay::new(self.alloc);
        match make_room_and_change(tree, reserve, &mut overlay, transaction, fixed, change) {
            Ok(counted) => {
                self.entries.push_reserved(Own {
                    transaction,
                    stamp: self.places.next_stamp(),
                    overlay,
                });
                self.places.add(transaction, false);
                Ok(counted)
            }
            Err(NoMemory) => Err(NoMemory),
        }
    }

    /// Makes a change of a transaction, counts what it has changed before and after it, and holds what the change holds; a
    /// file that it has not written starts from these bytes, if the transaction has not made it.
    pub(crate) fn change(
        &mut self,
        tree: &Tree,
        reserve: &mut Reserve,
        transaction: Id,
        fixed: PlacedRef<'_>,
        change: Change,
    ) -> Result<Counted, NoMemory>
        requires spare { 0 < reserve.old.spare }
        requires formed { IsWellFormed (tree_of tree.now) }
        requires can { CanChange (tree_of tree.now) fixed transaction change self.old }
        ensures ok { OnOk result (IsChangedIn (tree_of tree.now) fixed.entry transaction change self.old self.new reserve.old reserve.new) }
        ensures counted { IfOk result (IsCounted self.old self.new transaction) }
        ensures err { OnErr result (map bare_own self.new ≡ map bare_own self.old) }
        ensures same { OnErr result (reserve.new ≡ reserve.old) }
        ensures enough { CanAdd self.old transaction change → IsOk result }
    {
        match self.place_of(transaction) {
            Some(place) => {
                let entries = &mut self.entries;
                change_at(tree, reserve, entries, place, transaction, fixed, change)
            }
            None => self.change_first(tree, reserve, transaction, fixed, change),
        }
    }
}
