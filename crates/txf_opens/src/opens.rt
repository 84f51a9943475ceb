// The open files.
ghost use Rattle.std.specs.Prelude.{◌≡◌, ◌<◌, ◌≤◌, ◌+◌, ◌-◌, ◌^◌, ◌++◌, ◌∷◌, ◌==◌, ◌&&◌, ◌||◌, not, [], count_by, filter, find, is_none, is_some, length, min, IfNone, IfSome, IsOk, OnOk, false};
ghost use Rattle.std.specs.List.{list_any};
ghost use Rattle.std.specs.Option.{option_map};
ghost use Rattle.ktm_world.specs.Conflicts.{is_open_in, is_shared, lets_read, lets_write, opened_in, reads, violates_sharing, writes};
ghost use Rattle.ktm_world.specs.Transactions.{is_of};
ghost use Rattle.txf_opens.specs.Indexed.{IsNumberOf};
ghost use Rattle.txf_opens.specs.Acts.{open_of};
ghost use Rattle.txf_opens.specs.OpensState.{is_not_of, is_other_number, is_other_writer, is_own, opened};

use crate::file::{OpenFile, asks_write, is_same_group, lets_read, lets_write, reads};
use crate::index::{add, has_under, take};
use crate::name::{
    GroupName, NumberName, group_bytes, group_name, past, transacted_bytes, use_bytes, use_name,
};
use crate::uses::{Uses, first_writer_from, first_writer_under};
use ktm_base::{Id, NoMemory};
use ktm_counted::Steps;
use ktm_links::{Chains, Key, List, first_under, key_under, number_bytes};
use ktm_world::{Access, ShareMode};
use std::alloc::Global;
use std::marker::Model;
use std::sync::ledger::Ledger;

/// The open files of all processes, in the order in which they were opened.
#[derive(Drop)]
pub struct Opens {
    files: List<OpenFile>,
    // The keys of the files, by number, by group, and by what they are open on.
    by_number: Chains<NumberName, Key>,
    by_group: Chains<GroupName, Key>,
    by_use: Uses,
    // The number of the file opened last, or 0.
    last: u32,
}

impl Model for Opens {
    ghost use Rattle.std.specs.Prelude.{min};
    ghost use Rattle.txf_opens.specs.OpensState.{OpensState};

    ghost Value = { OpensState };

    ghost use Rattle.txf_opens.specs.Indexed.{opens_of, uses_spare, IsIndexed};

    ghost view = { λ o. record {
      opens = opens_of o.files.items;
      last = o.last;
      spare = min o.files.spare (min o.by_number.spare (min o.by_group.spare (uses_spare o.by_use)));
    } };

    ghost invariant = { λ o. IsIndexed o.files.items o.by_number.entries o.by_group.entries o.by_use o.last };
}

impl Opens {
    /// No open files, in a boot in which none was opened.
    pub fn new(alloc: Global) -> Self
        ensures opens { result.opens ≡ [] }
        ensures last { result.last ≡ 0 }
    {
        Opens {
            files: List::new(alloc),
            by_number: Chains::new(alloc),
            by_group: Chains::new(alloc),
            by_use: Uses::new(alloc),
            last: 0,
        }
    }

    /// The open file with this number.
    pub fn get(&self, number: u32) -> Option<OpenFile>
        ensures { option_map open_of result ≡ find (λ o. o.number == number) self.now.opens }
    {
        match key_under(&self.by_number, &number_bytes(number)) {
            Some(key) => self.files.get(key).copied(),
            None => None,
        }
    }

    /// How many files are open.
    pub fn len(&self) -> usize
        ensures { result ≡ length self.now.opens }
    {
        self.files.len()
    }

    /// The number of the file opened last in this boot, or 0.
    pub fn last(&self) -> u32
        ensures { result ≡ self.now.last }
    {
        self.last
    }

    /// Makes room for so many more open files. It fails where the memory does not reach, or where fewer can be told from
    /// all that were ever opened, which are at most 2^64 - 1.
    pub fn reserve(&mut self, n: usize) -> Result<(), NoMemory>
        ensures room { OnOk result (n ≤ self.new.spare) }
        ensures enough { n ≤ self.old.spare → IsOk result }
        ensures opens { self.new.opens ≡ self.old.opens }
        ensures last { self.new.last ≡ self.old.last }
        ensures spare { self.old.spare ≤ self.new.spare }
    {
        if let Err(NoMemory) = self.files.reserve(n) {
            return Err(NoMemory);
        }
        if let Err(NoMemory) = self.by_number.reserve(n) {
            return Err(NoMemory);
        }
        if let Err(NoMemory) = self.by_group.reserve(n) {
            return Err(NoMemory);
        }
        if let Err(NoMemory) = self.by_use.reserve(n) {
            return Err(NoMemory);
        }
        Ok(())
    }

    /// Opens a file, which gets the next number, and takes no memory.
    pub fn open(
        &mut self,
        node: u64,
        transaction: Option<Id>,
        access: Access,
        share: ShareMode,
    ) -> u32
        requires spare { 0 < self.old.spare }
        requires numbers { self.old.last < 2 ^ 32 - 1 }
        ensures number { result ≡ self.old.last + 1 }
        ensures opens { self.new.opens ≡ self.old.opens ++ opened (self.old.last + 1) node transaction access share ∷ [] }
        ensures last { self.new.last ≡ self.old.last + 1 }
        ensures spare { self.old.spare ≤ self.new.spare + 1 }
    {
        let number = self.last + 1;
        let file = OpenFile {
            number,
            node,
            transaction,
            access,
            share,
        };
        let key = self.files.push_spare(file);
        add(&mut self.by_number, true, number_bytes(number), key);
        let by_group = group_name(transaction, number);
        add(&mut self.by_group, true, by_group, key);
        self.by_use.add(file, key);
        self.last = number;
        number
    }

    /// Closes the file with this number, if it is open, and gives its place back.
    pub fn close(&mut self, number: u32)
        ensures opens { self.new.opens ≡ filter (is_other_number number) self.old.opens }
        ensures last { self.new.last ≡ self.old.last }
        ensures spare { self.old.spare ≤ self.new.spare }
    {
        let bytes = number_bytes(number);
        let Some(key) = key_under(&self.by_number, &bytes) else {
            return;
        };
        let Some(file) = self.files.unlink(key) else {
            unreachable!();
        };
        take(&mut self.by_number, &bytes);
        take(&mut self.by_group, &group_name(file.transaction, number));
        self.by_use
            .take(&use_name(file.node, file.transaction, number));
    }

    // The number of an open file of the transaction.
    fn first_of(&self, transaction: Id) -> Option<u32>
        ensures some { IfSome result (IsNumberOf self.now.opens transaction) }
        ensures none { IfNone result (list_any (λ o. is_of transaction o.transaction) self.now.opens ≡ false) }
    {
        let Some(key) = first_under(&self.by_group, &group_bytes(Some(transaction))) else {
            return None;
        };
        let Some(file) = self.files.get(key).copied() else {
            unreachable!();
        };
        Some(file.number)
    }

    /// Closes the files that are open in the transaction, and no others. Each file that is closed is a step.
    pub fn end_group<L: Ledger>(&mut self, transaction: Id, steps: &mut Steps<L>)
        ensures opens { self.new.opens ≡ filter (is_not_of transaction) self.old.opens }
        ensures last { self.new.last ≡ self.old.last }
        ensures spare { self.old.spare ≤ self.new.spare }
        ensures counted { steps.new ≡ steps.old + count_by (is_own transaction) self.old.opens }
    {
        while let Some(number) = self.first_of(transaction) {
            self.close(number);
            steps.tick();
        }
    }

    // May an open file of the group read the node.
    fn has_reader(&self, group: Option<Id>, node: u64) -> bool
        ensures { result ≡ list_any (λ o. reads o.access) (opened_in self.now.opens group node) }
    {
        has_under(&self.by_use.readers, &use_bytes(node, group))
    }

    // May an open file of the group write the node.
    fn has_writer_in(&self, group: Option<Id>, node: u64) -> bool
        ensures { result ≡ list_any (λ o. writes o.access) (opened_in self.now.opens group node) }
    {
        has_under(&self.by_use.writers, &use_bytes(node, group))
    }

    // Does an open file of the group not let others read the node.
    fn denies_read(&self, group: Option<Id>, node: u64) -> bool
        ensures { result ≡ list_any (λ o. not (lets_read o.share)) (opened_in self.now.opens group node) }
    {
        has_under(&self.by_use.deny_read, &use_bytes(node, group))
    }

    // Does an open file of the group not let others write the node.
    fn denies_write(&self, group: Option<Id>, node: u64) -> bool
        ensures { result ≡ list_any (λ o. not (lets_write o.share)) (opened_in self.now.opens group node) }
    {
        has_under(&self.by_use.deny_write, &use_bytes(node, group))
    }

    // Does an open file of the group not share what is asked for.
    fn denies(&self, group: Option<Id>, node: u64, asks_read: bool, asks_write: bool) -> bool
        ensures { result ≡ list_any (λ o. not (is_shared asks_read asks_write o.share)) (opened_in self.now.opens group node) }
    {
        (asks_read && self.denies_read(group, node))
            || (asks_write && self.denies_write(group, node))
    }

    // Does an open file of the group do what the share mode does not let others do.
    fn is_used_against(&self, group: Option<Id>, node: u64, share: ShareMode) -> bool
        ensures { result ≡ list_any (λ o. not (is_shared (reads o.access) (writes o.access) share)) (opened_in self.now.opens group node) }
    {
        (!lets_read(share) && self.has_reader(group, node))
            || (!lets_write(share) && self.has_writer_in(group, node))
    }

    /// Is an open refused for an open file of its group: one of the two asks for what the other does not share.
    pub fn violates_sharing(
        &self,
        group: Option<Id>,
        node: u64,
        access: Access,
        truncates: bool,
        share: ShareMode,
    ) -> bool
        ensures { result ≡ violates_sharing self.now.opens group node access truncates share }
    {
        let asks_write = asks_write(access, truncates);
        self.denies(group, node, reads(access), asks_write)
            || self.is_used_against(group, node, share)
    }

    /// Is the node open in the group.
    pub fn is_open_in(&self, group: Option<Id>, node: u64) -> bool
        ensures { result ≡ is_open_in self.now.opens group node }
    {
        self.has_reader(group, node) || self.has_writer_in(group, node)
    }

    /// May a plain open file write the node.
    pub fn has_plain_writer(&self, node: u64) -> bool
        ensures { result ≡ list_any (λ o. is_none o.transaction && writes o.access && o.node == node) self.now.opens }
    {
        self.has_writer_in(None, node)
    }

    // May an open file of a transaction read the node.
    fn is_read_transacted(&self, node: u64) -> bool
        ensures { result ≡ list_any (λ o. (is_some o.transaction && o.node == node) && reads o.access) self.now.opens }
    {
        has_under(&self.by_use.readers, &transacted_bytes(node))
    }

    // May an open file of a transaction write the node.
    fn is_written_transacted(&self, node: u64) -> bool
        ensures { result ≡ list_any (λ o. (is_some o.transaction && o.node == node) && writes o.access) self.now.opens }
    {
        has_under(&self.by_use.writers, &transacted_bytes(node))
    }

    /// Is the node open in a transaction.
    pub fn is_open_transacted(&self, node: u64) -> bool
        ensures { result ≡ list_any (λ o. is_some o.transaction && o.node == node) self.now.opens }
    {
        self.is_read_transacted(node) || self.is_written_transacted(node)
    }

    /// May an open file of a transaction other than this one write the node.
    pub fn is_written_by_other(&self, who: Option<Id>, node: u64) -> bool
        ensures { result ≡ list_any (is_other_writer who node) self.now.opens }
    {
        let writers = &self.by_use.writers;
        let Some(first) = first_writer_under(&self.files, writers, &transacted_bytes(node)) else {
            return false;
        };
        if !is_same_group(first.transaction, who) {
            return true;
        }
        match first_writer_from(&self.files, writers, &past(node, who)) {
            Some(next) => next.node == node,
            None => false,
        }
    }
}
