// The files in memory.
ghost use Rattle.std.specs.Prelude.{◌≡◌, ◌+◌, ◌<◌, ◌^◌, [], IfSome, None, Some, find, true};
ghost use Rattle.std.specs.Option.{option_copied};
ghost use Rattle.ktm_world.specs.Files.{bytes_seen, first_open_of, fixed_bytes};
ghost use Rattle.ktm_world.specs.Tree.{units_of, IsWellFormed};
ghost use Rattle.txf_tree.specs.TreeState.{tree_of, versions_of};
ghost use Rattle.txf_versions.specs.VersionsState.{is_pinned, is_version, older_units, AreHeld};
ghost use Rattle.txf_volume.specs.Making.{IsEnded};
ghost use Rattle.txf_overlay.specs.Laws.{IsOwn};
ghost use Rattle.txf_volume.specs.Ties.{IsOver};
ghost use Rattle.txf_volume.specs.Held.{files_begun, files_of, overlay_in, tree_units, version_bytes, FilesHeld};

use crate::counts::Counts;
use crate::own::Overlays;
use ktm_base::Id;
use ktm_content::{Placed, PlacedRef};
use std::alloc::Global;
use std::marker::Model;
use txf_opens::Opens;
use txf_overlay::Overlay;
use txf_reserve::Reserve;
use txf_tree::Tree;
use txf_versions::Versions;

/// The files as the machine has them in memory.
#[derive(Drop)]
pub struct Files {
    pub(crate) alloc: Global,
    pub(crate) tree: Tree,
    pub(crate) versions: Versions,
    pub(crate) overlays: Overlays,
    pub(crate) opens: Opens,
    pub(crate) reserve: Reserve,
    pub(crate) next_node: u64,
    // Of the committed files.
    pub(crate) units: u64,
    // Of what the transactions changed.
    pub(crate) counts: Counts,
}

impl Model for Files {
    ghost use Rattle.txf_volume.specs.Held.{FilesHeld};

    ghost Value = { FilesHeld };

    ghost use Rattle.txf_volume.specs.Ties.{AreTied};

    ghost view = { λ f. record {
      tree = f.tree;
      versions = f.versions;
      overlays = f.overlays;
      opens = f.opens;
      reserve = f.reserve;
      next_node = f.next_node;
    } };

    ghost invariant = { λ f. AreTied (record {
      tree = f.tree;
      versions = f.versions;
      overlays = f.overlays;
      opens = f.opens;
      reserve = f.reserve;
      next_node = f.next_node;
    }) f.units f.counts };
}

// A first open fixed each older version, and none is there twice.
pub(crate) fn law_of_older(versions: &Versions)
    ensures { AreHeld versions.now.opens versions.now.older }
{
    let _ = versions.older_units();
}

// The bytes of a version of a file.
fn version_bytes<'a>(
    tree: &'a Tree,
    versions: &'a Versions,
    file: u64,
    version: u64,
) -> PlacedRef<'a>
    ensures { result ≡ version_bytes (tree_of tree.now) versions.now.older file version }
{
    match versions.older_bytes(file, version) {
        Some(bytes) => bytes,
        None => tree.content(file),
    }
}

/// The bytes of a file that a transaction found as it first opened it, or else the last committed ones.
pub(crate) fn fixed_bytes<'a>(
    tree: &'a Tree,
    versions: &'a Versions,
    transaction: Id,
    file: u64,
) -> PlacedRef<'a>
    ensures { (h : FilesHeld) → h.tree ≡ tree.now → h.versions ≡ versions.now → result ≡ fixed_bytes (files_of h) file (first_open_of (files_of h).first_opens transaction file) }
{
    match versions.first_open(transaction, file) {
        Some(version) => version_bytes(tree, versions, file, version),
        None => tree.content(file),
    }
}

/// Keeps the bytes of a version that is no longer the last one, where somebody first opened it.
pub(crate) fn end_version(versions: &mut Versions, file: u64, version: u64, bytes: Placed)
    requires absent { is_pinned versions.old.opens file version ≡ true → find (is_version file version) versions.old.older ≡ None }
    requires few { is_pinned versions.old.opens file version ≡ true → older_units versions.old.older + units_of bytes < 2 ^ 64 }
    ensures { IsEnded versions.old versions.new file version bytes }
{
    if versions.is_pinned(file, version) {
        versions.keep(file, version, bytes);
    }
}

impl Files {
    /// The files of a machine that starts: this tree is committed, whose files have so many units, and no transaction has
    /// changed or opened anything.
    pub fn with_tree(alloc: Global, tree: Tree, units: u64, next_node: u64) -> Self
        requires formed { IsWellFormed (tree_of tree) }
        requires rest { versions_of tree ≡ [] }
        requires units { units ≡ tree_units (tree_of tree) }
        ensures { files_of result ≡ files_begun (tree_of tree) next_node }
    {
        Files {
            alloc,
            tree,
            versions: Versions::new(alloc),
            overlays: Overlays::new(alloc),
            opens: Opens::new(alloc),
            reserve: Reserve::new(alloc),
            next_node,
            units,
            counts: Counts::new(),
        }
    }

    /// The committed files and directories.
    pub fn tree(&self) -> &Tree
        ensures { result.now ≡ self.now.tree }
    {
        &self.tree
    }

    // What a transaction changed, if it changed anything.
    pub(crate) fn overlay(&self, transaction: Id) -> Option<&Overlay>
        ensures overlay { option_copied result ≡ overlay_in self.now.overlays transaction }
        ensures over { IfSome result (λ overlay. IsOver (tree_of self.now.tree) overlay.now) }
    {
        self.overlays.of(transaction)
    }

    // The bytes of a file that a transaction sees where it has changed something.
    fn bytes_over<'a>(&'a self, overlay: &'a Overlay, transaction: Id, file: u64) -> PlacedRef<'a>
        requires there { overlay_in self.now.overlays transaction ≡ Some overlay.now }
        requires own { IsOwn overlay.now }
        ensures { result ≡ bytes_seen (files_of self.now) (Some transaction) file }
    {
        match overlay.bytes(file) {
            Some(bytes) => bytes,
            None if overlay.has_made(file) => PlacedRef::none(),
            None => fixed_bytes(&self.tree, &self.versions, transaction, file),
        }
    }

    // The bytes of a file that a transaction sees.
    pub(crate) fn bytes_in(&self, transaction: Id, file: u64) -> PlacedRef<'_>
        ensures { result ≡ bytes_seen (files_of self.now) (Some transaction) file }
    {
        match self.overlay(transaction) {
            Some(overlay) => self.bytes_over(overlay, transaction, file),
            None => fixed_bytes(&self.tree, &self.versions, transaction, file),
        }
    }
}
