// The first opens, found by transaction and by version.
ghost use Rattle.std.specs.Prelude.{◌≡◌, ◌<◌, ◌≤◌, ◌+◌, ◌++◌, ◌∷◌, [], find, length, min, None, Some, true, false, IfNone, IfSome, IsOk, OnOk, OnSome};
ghost use Rattle.std.specs.List.{list_any};
ghost use Rattle.txf_versions.specs.Parts.{IsTaken};
ghost use Rattle.txf_versions.specs.VersionsState.{is_open_of, is_own, is_pinned};

use crate::name::{HolderName, OpenName, holder_name, open_name, transaction_bytes, version_name};
use crate::opened::Opened;
use ktm_base::{Id, NoMemory};
use ktm_links::{Chains, Key, List, first_under, key_under};
use std::alloc::Global;
use std::marker::Model;

/// The first opens in the order in which they were made.
#[derive(Drop)]
pub(crate) struct Opens {
    list: List<Opened>,
    // The keys of the list, by transaction and file, and by version and transaction.
    by_transaction: Chains<OpenName, Key>,
    by_version: Chains<HolderName, Key>,
}

impl Model for Opens {
    ghost use Rattle.std.specs.Prelude.{min};
    ghost use Rattle.txf_versions.specs.Parts.{OpensState};

    ghost Value = { OpensState };

    ghost use Rattle.ktm_links.specs.Indexed.{values_of, IsIndex};
    ghost use Rattle.txf_versions.specs.Names.{holder_name, own_name};

    ghost view = { λ o. record {
      opens = values_of o.list.items;
      spare = min o.list.spare (min o.by_transaction.spare o.by_version.spare);
    } };

    ghost invariant = { λ o. record {
      by_transaction : IsIndex own_name o.list.items o.by_transaction.entries;
      by_version : IsIndex holder_name o.list.items o.by_version.entries;
    } };
}

impl Opens {
    /// No first opens.
    pub(crate) fn new(alloc: Global) -> Self
        ensures { result.opens ≡ [] }
    {
        Opens {
            list: List::new(alloc),
            by_transaction: Chains::new(alloc),
            by_version: Chains::new(alloc),
        }
    }

    /// The transaction's first open of the file.
    pub(crate) fn get(&self, transaction: Id, file: u64) -> Option<Opened>
        ensures { result ≡ find (is_open_of transaction file) self.now.opens }
    {
        match key_under(&self.by_transaction, &open_name(transaction, file)) {
            Some(key) => self.list.get(key).copied(),
            None => None,
        }
    }

    /// Did a first open fix this version of the file.
    pub(crate) fn is_pinned(&self, file: u64, version: u64) -> bool
        ensures { result ≡ is_pinned self.now.opens file version }
    {
        first_under(&self.by_version, &version_name(file, version)).is_some()
    }

    /// How many there are.
    pub(crate) fn len(&self) -> usize
        ensures { result ≡ length self.now.opens }
    {
        self.list.len()
    }

    /// Makes room for so many more.
    pub(crate) fn reserve(&mut self, n: usize) -> Result<(), NoMemory>
        ensures room { OnOk result (n ≤ self.new.spare) }
        ensures enough { n ≤ self.old.spare → IsOk result }
        ensures opens { self.new.opens ≡ self.old.opens }
        ensures spare { self.old.spare ≤ self.new.spare }
    {
        if let Err(NoMemory) = self.list.reserve(n) {
            return Err(NoMemory);
        }
        if let Err(NoMemory) = self.by_transaction.reserve(n) {
            return Err(NoMemory);
        }
        if let Err(NoMemory) = self.by_version.reserve(n) {
            return Err(NoMemory);
        }
        Ok(())
    }

    /// One more, at the end. It takes no memory.
    pub(crate) fn push(&mut self, opened: Opened)
        requires spare { 0 < self.old.spare }
        requires first { find (is_open_of opened.transaction opened.file) self.old.opens ≡ None }
        ensures opens { self.new.opens ≡ self.old.opens ++ opened ∷ [] }
        ensures spare { self.new.spare + 1 ≡ self.old.spare }
    {
        let key = self.list.push_spare(opened);
        self.by_transaction
            .insert(open_name(opened.transaction, opened.file), key);
        self.by_version.insert(holder_name(opened), key);
    }

    /// Takes out the transaction's first open of the least file, if it has one.
    pub(crate) fn take_next(&mut self, transaction: Id) -> Option<Opened>
        ensures own { IfSome result (λ it. is_own transaction it ≡ true) }
        ensures taken { IfSome result (λ it. IsTaken self.old.opens it self.new.opens) }
        ensures none { IfNone result (list_any (is_own transaction) self.old.opens ≡ false) }
        ensures unchanged { IfNone result (self.new ≡ self.old) }
        ensures spare { self.old.spare ≤ self.new.spare }
    {
        let Some(key) = first_under(&self.by_transaction, &transaction_bytes(transaction)) else {
            return None;
        };
        let Some(opened) = self.list.unlink(key) else {
            unreachable!();
        };
        self.by_transaction
            .remove(&open_name(opened.transaction, opened.file));
        self.by_version.remove(&holder_name(opened));
        Some(opened)
    }
}
