// What transactions change, hold and open of the files, until they end.
ghost use Rattle.std.specs.Prelude.{◌≡◌, ℕ, ◌<◌, Some, None, IsOk, OnOk, OnErr, true};
ghost use Rattle.std.specs.Option.{option_map};
ghost use Rattle.txf_laws.specs.OwnChange.{owned};
ghost use Rattle.ktm_world.specs.declared.change.Change.{Change as Made};
ghost use Rattle.ktm_world.specs.Changes.{applies};
ghost use Rattle.ktm_world.specs.FileOutcome.{files_after};
ghost use Rattle.ktm_world.specs.Files.{bytes_seen, tree_seen};
ghost use Rattle.txf_opens.specs.Acts.{open_of};
ghost use Rattle.txf_opens.specs.declared.file.OpenFile.{OpenFile as Kept};
ghost use Rattle.txf_tree.specs.UnitChanges.{CanBeMadeOver};
ghost use Rattle.txf_volume.specs.Held.{files_of};
ghost use Rattle.txf_volume.specs.Restoring.{files_restored, CanBeRestored};
ghost use Rattle.txf_laws.specs.FileEffects.{forgotten, IsNextOpen, IsNotOpened, IsPlanOf, CanBeCounted};
ghost use Rattle.txf_volume.specs.Transacted.{changed_by, first_opened, opened_by, CanAdd, CanOwn, HasRoom, HasTreeRoom};
ghost use Rattle.txf_volume.specs.Uses.{IsSteady};

use crate::ends::close_all;
use crate::files::{Files, fixed_bytes};
use ktm_base::{Id, NoMemory};
use ktm_world::Change;
use txf_calls::Plan;
use txf_opens::OpenFile;
use txf_overlay::law_of_own_forms;
use txf_tree::{changes_bytes, next_after, node_of};

impl Files {
    // What is so of the files at every moment, as the contract of a function that does nothing.
    fn steady(&self)
        ensures { IsSteady (files_of self.now) }
    {
        let _ = &self.alloc;
    }

    // Takes the memory that a call needs whatever it changes, and room in the tree for a change of names beside all that wait.
    fn make_room(&mut self, change: &Option<Change>) -> Result<(), NoMemory>
        ensures files { files_of self.new ≡ files_of self.old }
        ensures opens { OnOk result (0 < self.new.opens.spare) }
        ensures versions { OnOk result (0 < self.new.versions.spare) }
        ensures reserve { OnOk result (0 < self.new.reserve.spare) }
        ensures tree { OnOk result (HasTreeRoom self.new change.now) }
        ensures overlays { self.new.overlays ≡ self.old.overlays }
        ensures enough { HasRoom self.old → HasTreeRoom self.old change.now → IsOk result }
    {
        if let Err(NoMemory) = self.opens.reserve(1) {
            return Err(NoMemory);
        }
        if let Err(NoMemory) = self.versions.reserve(1) {
            return Err(NoMemory);
        }
        if let Err(NoMemory) = self.reserve.reserve(1) {
            return Err(NoMemory);
        }
        match change {
            Some(change) if !changes_bytes(change) => {
                self.tree.reserve(self.counts.names as usize + 1)
            }
            _ => Ok(()),
        }
    }

    // A change of a transaction is its own from now on, and holds what it names.
    fn own(&mut self, transaction: Id, change: Change) -> Result<(), NoMemory>
        requires spare { 0 < self.old.reserve.spare }
        requires tree { HasTreeRoom self.old (Some change) }
        requires applies { applies (tree_seen (files_of self.old) (Some transaction)) change ≡ true }
        requires units { CanBeMadeOver (bytes_seen (files_of self.old) (Some transaction)) change }
        requires counted { CanBeCounted (owned (files_of self.old) transaction change) }
        ensures done { OnOk result (files_of self.new ≡ owned (files_of self.old) transaction change) }
        ensures same { OnErr result (files_of self.new ≡ files_of self.old) }
        ensures opens { self.new.opens ≡ self.old.opens }
        ensures versions { self.new.versions ≡ self.old.versions }
        ensures enough { CanAdd self.old.overlays transaction change → IsOk result }
    {
        law_of_own_forms();
        let next = next_after(self.next_node, &change);
        let fixed = fixed_bytes(&self.tree, &self.versions, transaction, node_of(&change));
        match self
            .overlays
            .change(&self.tree, &mut self.reserve, transaction, fixed, change)
        {
            Ok(counted) => {
                self.counts = self.counts.without(counted.before).with(counted.after);
                self.next_node = next;
                Ok(())
            }
            Err(NoMemory) => Err(NoMemory),
        }
    }

    // Takes the memory that a call needs. Then a change, if there is one, is the transaction's own and holds what it names.
    fn own_if(&mut self, transaction: Id, change: Option<Change>) -> Result<(), NoMemory>
        requires applies { (c : Made) → change ≡ Some c → applies (tree_seen (files_of self.old) (Some transaction)) c ≡ true }
        requires units { (c : Made) → change ≡ Some c → CanBeMadeOver (bytes_seen (files_of self.old) (Some transaction)) c }
        requires counted { CanBeCounted (changed_by (files_of self.old) transaction change) }
        ensures done { OnOk result (files_of self.new ≡ changed_by (files_of self.old) transaction change) }
        ensures same { OnErr result (files_of self.new ≡ files_of self.old) }
        ensures opens { OnOk result (0 < self.new.opens.spare) }
        ensures versions { OnOk result (0 < self.new.versions.spare) }
        ensures enough { HasRoom self.old → CanOwn self.old transaction change → IsOk result }
    {
        if let Err(NoMemory) = self.make_room(&change) {
            return Err(NoMemory);
        }
        match change {
            Some(change) => self.own(transaction, change),
            None => Ok(()),
        }
    }

    // The changes are the transaction's own from now on, one after another. Where memory fails, some of them are.
    fn own_all(&mut self, transaction: Id, changes: Vec<Change>) -> Result<(), NoMemory>
        requires { CanBeRestored (files_of self.old) transaction changes.items }
        ensures done { OnOk result (files_of self.new ≡ files_restored (files_of self.old) transaction changes.items) }
        ensures some { OnErr result (forgotten (files_of self.new) transaction ≡ files_of self.old) }
    {
        for change in changes {
            if let Err(NoMemory) = self.own_if(transaction, Some(change)) {
                return Err(NoMemory);
            }
        }
        Ok(())
    }

    // A committed file that the transaction opens first is fixed at its last version.
    fn fix(&mut self, transaction: Id, file: u64)
        requires spare { 0 < self.old.versions.spare }
        requires first { IsNotOpened (files_of self.old) transaction file }
        ensures files { files_of self.new ≡ first_opened (files_of self.old) transaction (Some file) }
        ensures opens { self.new.opens ≡ self.old.opens }
    {
        let version = self.tree.version(file);
        // The bytes of the last version are not kept beside the committed ones.
        prove!(self.versions.older_bytes(file, version).is_none());
        self.versions.pin(transaction, file, version);
    }

    // Fixes the version of a file that a transaction opens first, if it opens one.
    fn fix_if(&mut self, transaction: Id, file: Option<u64>)
        requires spare { 0 < self.old.versions.spare }
        requires first { (f : ℕ) → file ≡ Some f → IsNotOpened (files_of self.old) transaction f }
        ensures files { files_of self.new ≡ first_opened (files_of self.old) transaction file }
        ensures opens { self.new.opens ≡ self.old.opens }
    {
        match file {
            Some(file) => self.fix(transaction, file),
            None => {}
        }
    }

    // The file is open from now on, if there is one.
    fn open_if(&mut self, file: Option<OpenFile>)
        requires spare { 0 < self.old.opens.spare }
        requires next { (o : Kept) → file ≡ Some o → IsNextOpen (files_of self.old).table (open_of o) }
        ensures { files_of self.new ≡ opened_by (files_of self.old) (option_map open_of file) }
    {
        if let Some(file) = file {
            self.opens
                .open(file.node, file.transaction, file.access, file.share);
        }
    }

    /// Makes what a call of a transaction comes to: its change is the transaction's own from now on, and holds what it names;
    /// a file that it opens first is fixed at its last version; a file is open. Where memory fails, nothing has changed; a
    /// call finds the room that was left, and bytes over those that the transaction wrote take none.
    pub fn keep(&mut self, transaction: Id, plan: Plan) -> Result<(), NoMemory>
        requires plan { IsPlanOf (files_of self.old) transaction plan }
        requires units { (c : Made) → plan.change ≡ Some c → CanBeMadeOver (bytes_seen (files_of self.old) (Some transaction)) c }
        ensures done { OnOk result (files_of self.new ≡ files_after (files_of self.old) (Some transaction) plan) }
        ensures same { OnErr result (files_of self.new ≡ files_of self.old) }
        ensures enough { HasRoom self.old → plan.change ≡ None → IsOk result }
        ensures enough_for_change { HasRoom self.old → CanOwn self.old transaction plan.change → IsOk result }
    {
        let Plan {
            change,
            first,
            opened,
            ..
        } = plan;
        self.steady();
        if let Err(NoMemory) = self.own_if(transaction, change) {
            return Err(NoMemory);
        }
        self.fix_if(transaction, first);
        self.open_if(opened);
        Ok(())
    }

    /// Ends what a transaction changed, held, first opened and had open, and gives its memory back.
    pub fn forget(&mut self, transaction: Id)
        ensures { files_of self.new ≡ forgotten (files_of self.old) transaction }
    {
        let _ = self.overlays.take(&mut self.counts, transaction);
        self.reserve.release(transaction);
        self.versions.release(transaction);
        close_all(&mut self.opens, transaction);
    }

    /// The changes are those of a transaction that is brought back by a restart: they are its own from now on, behind those of
    /// the others, and hold what they name. Where memory fails, nothing has changed.
    pub fn restore(&mut self, transaction: Id, changes: Vec<Change>) -> Result<(), NoMemory>
        requires { CanBeRestored (files_of self.old) transaction changes.items }
        ensures done { OnOk result (files_of self.new ≡ files_restored (files_of self.old) transaction changes.items) }
        ensures same { OnErr result (files_of self.new ≡ files_of self.old) }
    {
        if let Err(NoMemory) = self.own_all(transaction, changes) {
            self.forget(transaction);
            return Err(NoMemory);
        }
        Ok(())
    }
}
