// The bytes of versions that are no longer the last one.
ghost use Rattle.std.specs.Prelude.{◌≡◌, ◌<◌, ◌≤◌, ◌+◌, ◌^◌, [], filter, find, length, not, None, IsOk, OnOk};
ghost use Rattle.std.specs.Option.{option_map};
ghost use Rattle.ktm_world.specs.Tree.{units_of};
ghost use Rattle.ktm_store.specs.Holding.{AreAllBelow, HoldsContents};
ghost use Rattle.txf_versions.specs.VersionsState.{is_version, older_contents, older_units, version_units, with_older};

use crate::name::{VersionName, version_name};
use ktm_base::NoMemory;
use ktm_content::{Placed, PlacedRef};
use ktm_links::Chains;
use ktm_store::Store;
use std::alloc::Global;
use std::marker::Model;

/// The bytes of a version of a file.
#[derive(Drop)]
pub(crate) struct Older {
    pub(crate) file: u64,
    pub(crate) version: u64,
    pub(crate) bytes: Placed,
}

/// The bytes of older versions, each once.
#[derive(Drop)]
pub(crate) struct Kept {
    map: Chains<VersionName, Older>,
    // Of all bytes that are kept.
    units: u64,
}

impl Model for Kept {
    ghost use Rattle.txf_versions.specs.Parts.{KeptState};

    ghost Value = { KeptState };

    ghost use Rattle.txf_versions.specs.Parts.{older_of, AreOlderKept};

    ghost view = { λ k. record { older = older_of k.map.entries; spare = k.map.spare } };

    ghost invariant = { λ k. AreOlderKept k.map.entries k.units };
}

// The units of these bytes.
fn units_of(bytes: &Placed) -> u64
    ensures { result ≡ units_of bytes.now }
{
    bytes.content().units() as u64
}

impl Kept {
    /// No bytes.
    pub(crate) fn new(alloc: Global) -> Self
        ensures { result.older ≡ [] }
    {
        Kept {
            map: Chains::new(alloc),
            units: 0,
        }
    }

    /// The bytes of the version, if they are here.
    pub(crate) fn bytes(&self, file: u64, version: u64) -> Option<PlacedRef<'_>>
        ensures { result ≡ option_map (λ v. v.bytes) (find (is_version file version) self.now.older) }
    {
        match self.map.find(&version_name(file, version)) {
            Some(key) => match self.map.get(key) {
                Some(older) => Some(older.bytes.lend()),
                None => None,
            },
            None => None,
        }
    }

    /// How many bytes the version has, if they are here.
    pub(crate) fn size(&self, file: u64, version: u64) -> Option<u64>
        ensures { result ≡ option_map (λ bytes. length bytes) (option_map (λ v. v.bytes) (find (is_version file version) self.now.older)) }
    {
        match self.bytes(file, version) {
            Some(bytes) => Some(bytes.len()),
            None => None,
        }
    }

    /// The units of all bytes that are here.
    pub(crate) fn units(&self) -> u64
        ensures { result ≡ older_units self.now.older }
    {
        self.units
    }

    /// Holds the pages of all bytes that are here.
    pub(crate) fn hold_pages(&self, store: &mut Store)
        requires { AreAllBelow store.old (older_contents self.now.older) }
        ensures { HoldsContents (older_contents self.now.older) (older_units self.now.older) store.old store.new }
    {
        let mut left = self.map.walk_from(&[]);
        'pages: while let Some(entry) = left.next() {
            store.hold(entry.value.bytes.lend());
        }
    }

    /// Makes room for so many more.
    pub(crate) fn reserve(&mut self, n: usize) -> Result<(), NoMemory>
        ensures room { OnOk result (n ≤ self.new.spare) }
        ensures enough { n ≤ self.old.spare → IsOk result }
        ensures older { self.new.older ≡ self.old.older }
        ensures spare { self.old.spare ≤ self.new.spare }
    {
        self.map.reserve(n)
    }

    /// One more, in its place. It takes no memory.
    pub(crate) fn insert(&mut self, older: Older)
        requires spare { 0 < self.old.spare }
        requires absent { find (is_version older.file older.version) self.old.older ≡ None }
        requires few { older_units self.old.older + version_units older < 2 ^ 64 }
        ensures older { self.new.older ≡ with_older self.old.older older }
        ensures spare { self.new.spare + 1 ≡ self.old.spare }
    {
        self.units += units_of(&older.bytes);
        self.map
            .insert(version_name(older.file, older.version), older);
    }

    /// Gives the bytes of the version back, if they are here.
    pub(crate) fn remove(&mut self, file: u64, version: u64)
        ensures older { self.new.older ≡ filter (λ v. not (is_version file version v)) self.old.older }
        ensures len { length self.old.older ≤ length self.new.older + 1 }
        ensures spare { self.old.spare ≤ self.new.spare }
    {
        if let Some(older) = self.map.remove(&version_name(file, version)) {
            self.units -= units_of(&older.bytes);
        }
    }
}
