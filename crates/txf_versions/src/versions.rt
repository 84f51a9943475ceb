// The versions that transactions first opened.
ghost use Rattle.std.specs.Prelude.{◌≡◌, ℕ, ◌<◌, ◌≤◌, ◌+◌, ◌^◌, ◌++◌, ◌∷◌, ◌==◌, ◌&&◌, [], filter, find, length, true, false, None, Some, IsOk, OnOk, OnSome};
ghost use Rattle.std.specs.List.{list_any};
ghost use Rattle.std.specs.Option.{option_map};
ghost use Rattle.ktm_world.specs.Tree.{units_of};
ghost use Rattle.ktm_store.specs.Holding.{AreAllBelow, HoldsContents};
ghost use Rattle.txf_versions.specs.VersionsState.{is_held, is_open_of, is_own, is_pinned, is_version, older_contents, older_units, with_older, without_transaction, AreHeld};

use crate::kept::{Kept, Older};
use crate::opened::Opened;
use crate::opens::Opens;
use ktm_base::{Id, NoMemory};
use ktm_content::{Placed, PlacedRef};
use ktm_store::Store;
use std::alloc::Global;
use std::marker::Model;

/// The first opens of undecided transactions, and the bytes of the versions among them that are no longer the last one.
#[derive(Drop)]
pub struct Versions {
    first_opens: Opens,
    kept: Kept,
    // For the versions of how many more first opens there is room in `kept`, beside those that are pinned.
    free: usize,
}

impl Model for Versions {
    ghost use Rattle.std.specs.Prelude.{min};
    ghost use Rattle.txf_versions.specs.VersionsState.{VersionsState};

    ghost Value = { VersionsState };

    ghost use Rattle.txf_versions.specs.Parts.{AreReady};

    ghost view = { λ v. record {
      opens = v.first_opens.opens;
      older = v.kept.older;
      spare = min v.first_opens.spare v.free;
    } };

    ghost invariant = { λ v. AreReady v.first_opens.opens v.kept.older v.kept.spare v.free };
}

impl Versions {
    /// No first opens.
    pub fn new(alloc: Global) -> Self
        ensures opens { result.opens ≡ [] }
        ensures older { result.older ≡ [] }
    {
        Versions {
            first_opens: Opens::new(alloc),
            kept: Kept::new(alloc),
            free: 0,
        }
    }

    /// The version of the file that the transaction fixed, if it has opened it.
    pub fn first_open(&self, transaction: Id, file: u64) -> Option<u64>
        ensures { result ≡ option_map (λ o. o.version) (find (is_open_of transaction file) self.now.opens) }
    {
        match self.first_opens.get(transaction, file) {
            Some(opened) => Some(opened.version),
            None => None,
        }
    }

    /// Did a transaction fix this version of the file.
    pub fn is_pinned(&self, file: u64, version: u64) -> bool
        ensures { result ≡ is_pinned self.now.opens file version }
    {
        self.first_opens.is_pinned(file, version)
    }

    /// The bytes of a version that is no longer the last one, if they were kept.
    pub fn older_bytes(&self, file: u64, version: u64) -> Option<PlacedRef<'_>>
        ensures bytes { result ≡ option_map (λ v. v.bytes) (find (is_version file version) self.now.older) }
        ensures pinned { OnSome result (is_pinned self.now.opens file version ≡ true) }
    {
        self.kept.bytes(file, version)
    }

    /// How many bytes a version has that is no longer the last one, if they were kept.
    pub fn older_size(&self, file: u64, version: u64) -> Option<u64>
        ensures { result ≡ option_map (λ bytes. length bytes) (option_map (λ v. v.bytes) (find (is_version file version) self.now.older)) }
    {
        self.kept.size(file, version)
    }

    /// The units of 4,096 bytes that the kept bytes take, those of each version rounded up.
    pub fn older_units(&self) -> u64
        ensures units { result ≡ older_units self.now.older }
        ensures held { AreHeld self.now.opens self.now.older }
    {
        self.kept.units()
    }

    /// Holds the pages of the bytes that are kept.
    pub fn hold_pages(&self, store: &mut Store)
        requires { AreAllBelow store.old (older_contents self.now.older) }
        ensures { HoldsContents (older_contents self.now.older) (older_units self.now.older) store.old store.new }
    {
        self.kept.hold_pages(store);
    }

    /// How many first opens there are.
    pub fn len(&self) -> usize
        ensures { result ≡ length self.now.opens }
    {
        self.first_opens.len()
    }

    /// Makes room for so many more first opens, and for the bytes of their versions to be kept. It fails where the memory
    /// does not reach, or where fewer can be told from all that ever came, which are at most 2^64 - 1.
    pub fn reserve(&mut self, n: usize) -> Result<(), NoMemory>
        ensures room { OnOk result (n ≤ self.new.spare) }
        ensures enough { n ≤ self.old.spare → IsOk result }
        ensures opens { self.new.opens ≡ self.old.opens }
        ensures older { self.new.older ≡ self.old.older }
        ensures spare { self.old.spare ≤ self.new.spare }
    {
        if let Err(NoMemory) = self.first_opens.reserve(n) {
            return Err(NoMemory);
        }
        if n <= self.free {
            return Ok(());
        }
        let Some(places) = n.checked_add(self.first_opens.len()) else {
            return Err(NoMemory);
        };
        if let Err(NoMemory) = self.kept.reserve(places) {
            return Err(NoMemory);
        }
        self.free = n;
        Ok(())
    }

    /// The transaction's first open of the file fixes this version. It takes no memory.
    pub fn pin(&mut self, transaction: Id, file: u64, version: u64)
        requires spare { 0 < self.old.spare }
        requires first { find (is_open_of transaction file) self.old.opens ≡ None }
        ensures opens { self.new.opens ≡ self.old.opens ++ record { transaction = transaction; file = file; version = version } ∷ [] }
        ensures older { self.new.older ≡ self.old.older }
        ensures spare { self.new.spare + 1 ≡ self.old.spare }
    {
        self.first_opens.push(Opened {
            transaction,
            file,
            version,
        });
        self.free -= 1;
    }

    /// Keeps the bytes of a version that is about to be no longer the last one, once for all that fixed it. It takes no
    /// memory, and copies nothing.
    pub fn keep(&mut self, file: u64, version: u64, bytes: Placed)
        requires pinned { is_pinned self.old.opens file version ≡ true }
        requires absent { find (is_version file version) self.old.older ≡ None }
        requires few { older_units self.old.older + units_of bytes < 2 ^ 64 }
        ensures opens { self.new.opens ≡ self.old.opens }
        ensures older { self.new.older ≡ with_older self.old.older (record { file = file; version = version; bytes = bytes }) }
        ensures spare { self.new.spare ≡ self.old.spare }

        // What is found behind the call, and how many units it has.
        ensures found { find (is_version file version) self.new.older ≡ Some (record { file = file; version = version; bytes = bytes }) }
        ensures others { (f v : ℕ) → (file == f && version == v) ≡ false → find (is_version f v) self.new.older ≡ find (is_version f v) self.old.older }
        ensures units { older_units self.new.older ≡ older_units self.old.older + units_of bytes }
    {
        self.kept.insert(Older {
            file,
            version,
            bytes,
        });
    }

    /// Ends the first opens of the transaction, and gives back the bytes of the versions that are pinned no more.
    pub fn release(&mut self, transaction: Id)
        ensures opens { self.new.opens ≡ without_transaction self.old.opens transaction }
        ensures older { self.new.older ≡ filter (is_held self.new.opens) self.old.older }
        ensures spare { self.old.spare ≤ self.new.spare }

        // What is found behind the call.
        ensures held { (f v : ℕ) → is_pinned self.new.opens f v ≡ true → find (is_version f v) self.new.older ≡ find (is_version f v) self.old.older }
    {
        while self.release_next(transaction) {}
    }

    // Ends one first open of the transaction, if it has one.
    fn release_next(&mut self, transaction: Id) -> bool
        ensures others { without_transaction self.new.opens transaction ≡ without_transaction self.old.opens transaction }
        ensures fewer { result ≡ true → length self.new.opens < length self.old.opens }
        ensures none { result ≡ false → list_any (is_own transaction) self.new.opens ≡ false }
        ensures still { (f v : ℕ) → is_pinned self.new.opens f v ≡ true → is_pinned self.old.opens f v ≡ true }
        ensures older { self.new.older ≡ filter (is_held self.new.opens) self.old.older }
        ensures spare { self.old.spare ≤ self.new.spare }
    {
        let Some(opened) = self.first_opens.take_next(transaction) else {
            return false;
        };
        if !self.first_opens.is_pinned(opened.file, opened.version) {
            self.kept.remove(opened.file, opened.version);
        }
        true
    }
}
