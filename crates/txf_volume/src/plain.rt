// What a plain call makes of the files, in two steps: it takes its memory, and once its change is recorded it is made.
ghost use Rattle.std.specs.Prelude.{◌≡◌, ◌+◌, ◌-◌, ◌<◌, ◌^◌, ℕ, ◌≤◌, None, Some, All, IfOk, IfSome, IsOk, OnOk, is_some, sum_by, true, if◌then◌else◌};
ghost use Rattle.std.specs.Option.{option_map};
ghost use Rattle.ktm_world.specs.Changes.{applies, changed, changes_bytes, next_after, node_of};
ghost use Rattle.ktm_world.specs.Committed.{version_of, versions_after};
ghost use Rattle.ktm_world.specs.FileOutcome.{changing, files_after, with_open};
ghost use Rattle.ktm_world.specs.Tree.{is_file, numbers_rise};
ghost use Rattle.txf_opens.specs.Acts.{open_of};
ghost use Rattle.txf_opens.specs.declared.file.OpenFile.{OpenFile as Kept};
ghost use Rattle.txf_tree.specs.TreeState.{fits, takes, tree_of, versions_of};
ghost use Rattle.txf_tree.specs.UnitChanges.{CanBeMade};
ghost use Rattle.txf_versions.specs.VersionsState.{is_pinned};
ghost use Rattle.txf_volume.specs.Held.{files_of, names_held, tree_units};
ghost use Rattle.txf_laws.specs.FileEffects.{IsPlain, IsPlainChange, IsPlainOpen, LeavesOwn, CanBeCounted};
ghost use Rattle.txf_volume.specs.Plain.{copied_for, CanBeKept, IsLeftOver, IsReady, KeepsEnded};
ghost use Rattle.txf_volume.specs.Ties.{IsKeptOpen};

use crate::change::{gain, loss};
use crate::files::{Files, end_version, law_of_older};
use ktm_base::NoMemory;
use ktm_content::Placed;
use ktm_world::Change;
use std::alloc::Global;
use std::marker::Model;
use txf_calls::Plan;
use txf_laws::law_of_forms;
use txf_opens::OpenFile;
use txf_overlay::law_of_other_trees;
use txf_tree::{Tree, changes_bytes, next_after, node_of};
use txf_versions::Versions;

/// A plain call for which the memory is there: a copy of the content that its change ends, on the same pages, where it has
/// to be kept.
#[derive(Drop)]
pub struct Ready {
    kept: Option<Placed>,
}

impl Model for Ready {
    ghost use Rattle.std.specs.Prelude.{ℕ, List, Option};

    ghost Value = { Option (List ℕ) };

    ghost view = { λ r. r.kept };
}

// The units of the committed files, once a change is made.
fn units_after(tree: &Tree, units: u64, change: &Change) -> u64
    requires rise { numbers_rise (tree_of tree.now) ≡ true }
    requires file { changes_bytes change.now ≡ true → is_file (tree_of tree.now) (node_of change.now) ≡ true }
    requires sum { units ≡ tree_units (tree_of tree.now) }
    requires few { tree_units (changed (tree_of tree.now) change.now) < 2 ^ 64 }
    ensures { result ≡ tree_units (changed (tree_of tree.now) change.now) }
{
    let was = tree.size(node_of(change));
    (units as u128 + gain(was, change) - loss(was, change)) as u64
}

// Makes a change, and keeps the bytes that it ends, where somebody first opened them.
fn apply(tree: &mut Tree, versions: &mut Versions, change: Change, copy: Option<Placed>)
    requires does_apply { applies (tree_of tree.old) change ≡ true }
    requires units { CanBeMade (tree_of tree.old) change }
    requires fits { fits tree.old change ≡ true }
    requires few { version_of (versions_of tree.old) (node_of change) < 2 ^ 64 - 2 }
    requires opened { All (IsKeptOpen tree.old versions.old.older) versions.old.opens }
    requires counted { CanBeKept tree.old change versions.old }
    requires copied { copy ≡ copied_for tree.old versions.old.opens change }
    ensures tree { tree_of tree.new ≡ changed (tree_of tree.old) change }
    ensures versions { versions_of tree.new ≡ versions_after (versions_of tree.old) change }
    ensures spare { tree.old.spare ≤ tree.new.spare + takes change }
    ensures opens { versions.new.opens ≡ versions.old.opens }
    ensures older { KeepsEnded tree.old change versions.old.opens versions.old.older versions.new.older }
{
    let file = node_of(&change);
    let version = tree.version(file);
    let dropped = tree.apply(change);
    if let Some(bytes) = copy.or(dropped) {
        end_version(versions, file, version, bytes);
    }
}

// Takes the memory that a change needs, with room in the tree for the nodes that wait beside it.
fn prepare_beside(tree: &mut Tree, waiting: u64, change: &Change) -> Result<(), NoMemory>
    requires room { waiting ≤ tree.old.spare }
    requires few { waiting < 2 ^ 63 }
    ensures fits { OnOk result (fits tree.new change.now ≡ true) }
    ensures room { OnOk result (waiting + takes change.now ≤ tree.new.spare) }
    ensures enough { fits tree.old change.now ≡ true → waiting + takes change.now ≤ tree.old.spare → IsOk result }
    ensures tree { tree_of tree.new ≡ tree_of tree.old }
    ensures versions { versions_of tree.new ≡ versions_of tree.old }
    ensures spare { tree.old.spare ≤ tree.new.spare }
{
    match change {
        Change::Make { .. } | Change::Move { .. } => tree.reserve(waiting as usize + 1),
        Change::Put { .. } | Change::Cut { .. } | Change::Drop { .. } => tree.prepare(change),
    }
}

// A copy of the content that a change ends, where it has to be kept and is not handed out by it.
fn copy_for(
    alloc: Global,
    tree: &Tree,
    versions: &Versions,
    change: &Change,
) -> Result<Ready, NoMemory>
    ensures copy { IfOk result (λ copy. copy ≡ copied_for tree.now versions.now.opens change.now) }
    ensures enough { copied_for tree.now versions.now.opens change.now ≡ None → IsOk result }
{
    let file = node_of(change);
    if !changes_bytes(change) || !versions.is_pinned(file, tree.version(file)) {
        return Ok(Ready { kept: None });
    }
    let content = tree.content(file).copy(alloc)?;
    Ok(Ready {
        kept: Some(Placed::new(content)),
    })
}

impl Files {
    /// Takes the memory that a plain call needs, and leaves to the changes that wait the room that they took. The numbers
    /// of the pages of a file that it changes are copied where somebody first opened it, and else nothing is copied.
    pub fn prepare(&mut self, plan: &Plan) -> Result<Ready, NoMemory>
        ensures same { files_of self.new ≡ files_of self.old }
        ensures ready { IfOk result (λ ready. IsReady self.new plan.now ready) }
        ensures enough { IsReady self.old plan.now None → IsOk result }
        ensures spare { self.old.opens.spare ≤ self.new.opens.spare }
        ensures tree { self.old.tree.spare ≤ self.new.tree.spare }
        ensures overlays { self.new.overlays ≡ self.old.overlays }
        ensures versions { self.new.versions ≡ self.old.versions }
        ensures reserve { self.new.reserve ≡ self.old.reserve }
    {
        if plan.opened.is_some() {
            if let Err(NoMemory) = self.opens.reserve(1) {
                return Err(NoMemory);
            }
        }
        let Some(change) = &plan.change else {
            return Ok(Ready { kept: None });
        };
        if let Err(NoMemory) = prepare_beside(&mut self.tree, self.counts.names, change) {
            return Err(NoMemory);
        }
        copy_for(self.alloc, &self.tree, &self.versions, change)
    }

    // Makes the change of a plain call.
    fn commit_plain(&mut self, change: Change, copy: Option<Placed>)
        requires plain { IsPlainChange (files_of self.old) change }
        requires can { CanBeMade (tree_of self.old.tree) change }
        requires fits { fits self.old.tree change ≡ true }
        requires room { sum_by names_held self.old.overlays + takes change ≤ self.old.tree.spare }
        requires copied { copy ≡ copied_for self.old.tree self.old.versions.opens change }
        requires left { All (λ own. IsLeftOver (tree_of self.old.tree) change own.overlay) self.old.overlays }
        requires units { tree_units (changed (tree_of self.old.tree) change) < 2 ^ 64 }
        requires kept { CanBeKept self.old.tree change self.old.versions }
        ensures files { files_of self.new ≡ files_after (files_of self.old) None (changing change) }
        ensures opens { self.new.opens ≡ self.old.opens }
    {
        law_of_forms();
        law_of_other_trees();
        self.units = units_after(&self.tree, self.units, &change);
        self.next_node = next_after(self.next_node, &change);
        apply(&mut self.tree, &mut self.versions, change, copy);
    }

    // Opens a file in a plain call, if there is one.
    fn open_plain(&mut self, file: Option<OpenFile>)
        requires plain { (o : Kept) → file ≡ Some o → IsPlainOpen (files_of self.old) (open_of o) }
        requires spare { is_some file ≡ true → 0 < self.old.opens.spare }
        ensures { files_of self.new ≡ record (files_of self.old) { table = with_open (files_of self.old).table (option_map open_of file) } }
    {
        if let Some(file) = file {
            self.opens
                .open(file.node, file.transaction, file.access, file.share);
        }
    }

    /// Makes what a plain call comes to, once its change is recorded. It takes no memory.
    pub fn settle(&mut self, plan: Plan, ready: Ready)
        requires plain { IsPlain (files_of self.old) plan }
        requires units { IfSome plan.change (CanBeMade (files_of self.old).tree) }
        requires ready { IsReady self.old plan ready }
        requires left { LeavesOwn (files_of self.old) (files_after (files_of self.old) None plan) }
        requires counted { CanBeCounted (files_after (files_of self.old) None plan) }
        ensures { files_of self.new ≡ files_after (files_of self.old) None plan }
    {
        law_of_older(&self.versions);
        let Plan { change, opened, .. } = plan;
        let Ready { kept } = ready;
        if let Some(change) = change {
            self.commit_plain(change, kept);
        }
        self.open_plain(opened);
    }
}
