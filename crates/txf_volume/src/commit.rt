// What a transaction changed is committed.
ghost use Rattle.std.specs.Prelude.{◌≡◌, ◌+◌, ◌-◌, ◌<◌, ◌^◌, ◌∷◌, [], length, IfSome, MatchOption, None};
ghost use Rattle.txf_laws.specs.Reservations.{files_committed};
ghost use Rattle.ktm_world.specs.Files.{own_changes};
ghost use Rattle.ktm_world.specs.Tree.{units_of};
ghost use Rattle.txf_overlay.specs.OverlayState.{final_of, own_of};
ghost use Rattle.std.specs.List.{flat_map};
ghost use Rattle.txf_volume.specs.Commit.{MayCommit};
ghost use Rattle.txf_volume.specs.Making.{parts, AreMade, AreRight, CanName, CanReplace, CanTake};
ghost use Rattle.txf_volume.specs.Held.{files_of};

use crate::change::units_in;
use crate::ends::close_all;
use crate::files::{Files, end_version, law_of_older};
use ktm_base::Id;
use ktm_content::Placed;
use ktm_counted::Steps;
use ktm_world::Change;
use std::sync::ledger::Ledger;
use txf_laws::law_of_forms;
use txf_overlay::{Overlay, WrittenFile, law_of_other_trees};
use txf_tree::{Tree, node_of};
use txf_versions::Versions;

// The units of these bytes.
fn units_of(bytes: &Placed) -> u128
    ensures units { result ≡ units_of bytes.now }
    ensures few { result < 2 ^ 66 }
{
    units_in(bytes.len() as u128)
}

// Makes a change of names.
fn apply_name(tree: &mut Tree, versions: &mut Versions, units: &mut u128, change: Change)
    requires { CanName (parts tree.old versions.old units.old) (change ∷ []) }
    ensures { AreMade (parts tree.old versions.old units.old) (parts tree.new versions.new units.new) (change ∷ []) }
{
    let file = node_of(&change);
    let version = tree.version(file);
    if let Some(bytes) = tree.apply(change) {
        *units -= units_of(&bytes);
        end_version(versions, file, version, bytes);
    }
}

// Makes changes of names in order. Each is a step.
fn apply_names<L: Ledger>(
    tree: &mut Tree,
    versions: &mut Versions,
    units: &mut u128,
    names: Vec<Change>,
    steps: &mut Steps<L>,
)
    requires { CanName (parts tree.old versions.old units.old) names.items }
    ensures made { AreMade (parts tree.old versions.old units.old) (parts tree.new versions.new units.new) names.items }
    ensures counted { steps.new ≡ steps.old + length names.items }
{
    for change in names {
        apply_name(tree, versions, units, change);
        steps.tick();
    }
}

// Gives a file the bytes that a transaction wrote.
fn replace_file(tree: &mut Tree, versions: &mut Versions, units: &mut u128, written: WrittenFile)
    requires { CanReplace (parts tree.old versions.old units.old) (written ∷ []) }
    ensures { AreMade (parts tree.old versions.old units.old) (parts tree.new versions.new units.new) (final_of written) }
{
    let file = written.file();
    let version = tree.version(file);
    let bytes = written.into_bytes();
    *units += units_of(&bytes);
    let was = tree.replace(file, bytes);
    *units -= units_of(&was);
    end_version(versions, file, version, was);
}

// Counts the changes by which a file gets its bytes: it is cut to nothing, and then gets them, where there are any.
fn count_final<L: Ledger>(written: &WrittenFile, steps: &mut Steps<L>)
    ensures { steps.new ≡ steps.old + length (final_of written.now) }
{
    steps.tick();
    if written.bytes().len() > 0 {
        steps.tick();
    }
}

// Gives files the bytes that a transaction wrote. Each change that this takes is a step.
fn replace_files<L: Ledger>(
    tree: &mut Tree,
    versions: &mut Versions,
    units: &mut u128,
    overlay: &mut Overlay,
    steps: &mut Steps<L>,
)
    requires { CanReplace (parts tree.old versions.old units.old) overlay.old.written }
    ensures made { AreMade (parts tree.old versions.old units.old) (parts tree.new versions.new units.new) (flat_map final_of overlay.old.written) }
    ensures counted { steps.new ≡ steps.old + length (flat_map final_of overlay.old.written) }
{
    while let Some(file) = overlay.pop_written() {
        count_final(&file, steps);
        replace_file(tree, versions, units, file);
    }
}

// Commits what a transaction changed, and says how many units the committed files have then. Each change is a step.
fn commit_overlay<L: Ledger>(
    tree: &mut Tree,
    versions: &mut Versions,
    units: u64,
    overlay: Overlay,
    steps: &mut Steps<L>,
) -> u64
    requires { CanTake (parts tree.old versions.old units) overlay }
    ensures made { AreMade (parts tree.old versions.old units) (parts tree.new versions.new result) (own_of overlay) }
    ensures counted { steps.new ≡ steps.old + length (own_of overlay) }
{
    let mut overlay = overlay;
    let mut units = units as u128;
    let names = overlay.take_names();
    apply_names(tree, versions, &mut units, names, steps);
    replace_files(tree, versions, &mut units, &mut overlay, steps);
    // Its memory goes back in one call, and not part by part as at the end of the function.
    drop(overlay);
    units as u64
}

// Commits what a transaction changed, if it changed anything. Each change is a step.
fn commit_own<L: Ledger>(
    tree: &mut Tree,
    versions: &mut Versions,
    units: u64,
    own: Option<Overlay>,
    steps: &mut Steps<L>,
) -> u64
    requires right { AreRight (parts tree.old versions.old units) }
    requires can { IfSome own (CanTake (parts tree.old versions.old units)) }
    ensures counted { MatchOption own (steps.new ≡ steps.old) (λ o. steps.new ≡ steps.old + length (own_of o)) }
    ensures made { MatchOption own (AreMade (parts tree.old versions.old units) (parts tree.new versions.new result) []) (λ o. AreMade (parts tree.old versions.old units) (parts tree.new versions.new result) (own_of o)) }
{
    match own {
        Some(overlay) => commit_overlay(tree, versions, units, overlay, steps),
        None => units,
    }
}

impl Files {
    // Commits what a transaction changed, and ends what it held, first opened and had open. It takes no memory, since its changes
    // took it, and copies no byte. Each change is a step.
    pub(crate) fn commit_transaction<L: Ledger>(&mut self, transaction: Id, steps: &mut Steps<L>)
        requires { MayCommit (files_of self.old) transaction }
        ensures files { files_of self.new ≡ files_committed (files_of self.old) transaction }
        ensures counted { steps.new ≡ steps.old + length (own_changes (files_of self.old).table.own transaction) }
    {
        law_of_forms();
        law_of_other_trees();
        self.versions.release(transaction);
        law_of_older(&self.versions);
        self.reserve.release(transaction);
        close_all(&mut self.opens, transaction);
        let own = self.overlays.take(&mut self.counts, transaction);
        self.units = commit_own(&mut self.tree, &mut self.versions, self.units, own, steps);
    }
}
