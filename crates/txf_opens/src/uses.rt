// The open files by what they are open on.
ghost use Rattle.std.specs.Prelude.{◌≡◌, ◌<◌, ◌≤◌, ◌+◌, [], min, IsOk, OnOk, IfSome, IfNone, None};
ghost use Rattle.std.specs.Bool.{MatchBool};
ghost use Rattle.ktm_links.specs.Mapped.{Begins, IsNotBelow};
ghost use Rattle.txf_opens.specs.Indexed.{AddsUse, AreSame, IsFree, IsIndex, TakesUse, is_writer, uses_spare};
ghost use Rattle.txf_opens.specs.Names.{use_name};
ghost use Rattle.txf_opens.specs.Acts.{open_of};
ghost use Rattle.txf_opens.specs.Writers.{IsFirstWriter, IsNoWriter};

use crate::file::{OpenFile, lets_read, lets_write, reads, writes};
use crate::index::{add, take};
use crate::name::{UseName, use_name};
use ktm_base::NoMemory;
use ktm_links::{Chains, Key, List, first_from, first_under};
use std::alloc::Global;

/// The keys of the open files by node and group: of those that read, that write, that do not let others read, and that do
/// not let others write.
#[derive(Drop)]
pub(crate) struct Uses {
    pub(crate) readers: Chains<UseName, Key>,
    pub(crate) writers: Chains<UseName, Key>,
    pub(crate) deny_read: Chains<UseName, Key>,
    pub(crate) deny_write: Chains<UseName, Key>,
}

impl Uses {
    pub(crate) fn new(alloc: Global) -> Self
        ensures readers { result.readers.entries ≡ [] }
        ensures writers { result.writers.entries ≡ [] }
        ensures deny_read { result.deny_read.entries ≡ [] }
        ensures deny_write { result.deny_write.entries ≡ [] }
    {
        Uses {
            readers: Chains::new(alloc),
            writers: Chains::new(alloc),
            deny_read: Chains::new(alloc),
            deny_write: Chains::new(alloc),
        }
    }

    /// Makes room for so many more open files.
    pub(crate) fn reserve(&mut self, n: usize) -> Result<(), NoMemory>
        ensures room { OnOk result (n ≤ uses_spare self.new) }
        ensures enough { n ≤ uses_spare self.old → IsOk result }
        ensures same { AreSame self.old self.new }
        ensures spare { uses_spare self.old ≤ uses_spare self.new }
    {
        if let Err(NoMemory) = self.readers.reserve(n) {
            return Err(NoMemory);
        }
        if let Err(NoMemory) = self.writers.reserve(n) {
            return Err(NoMemory);
        }
        if let Err(NoMemory) = self.deny_read.reserve(n) {
            return Err(NoMemory);
        }
        if let Err(NoMemory) = self.deny_write.reserve(n) {
            return Err(NoMemory);
        }
        Ok(())
    }

    /// One open file more.
    pub(crate) fn add(&mut self, file: OpenFile, key: Key)
        requires spare { 0 < uses_spare self.old }
        requires free { IsFree (use_name (open_of file)) self.old }
        ensures adds { AddsUse (open_of file) key self.old self.new }
        ensures spare { uses_spare self.old ≤ uses_spare self.new + 1 }
    {
        let name = use_name(file.node, file.transaction, file.number);
        add(&mut self.readers, reads(file.access), name, key);
        add(&mut self.writers, writes(file.access), name, key);
        add(&mut self.deny_read, !lets_read(file.share), name, key);
        add(&mut self.deny_write, !lets_write(file.share), name, key);
    }

    /// One open file less.
    pub(crate) fn take(&mut self, name: &[u8])
        ensures takes { TakesUse name.now self.old self.new }
        ensures spare { uses_spare self.old ≤ uses_spare self.new }
    {
        take(&mut self.readers, name);
        take(&mut self.writers, name);
        take(&mut self.deny_read, name);
        take(&mut self.deny_write, name);
    }
}

/// The first of the files open for writing whose names begin with these bytes.
pub(crate) fn first_writer_under(
    files: &List<OpenFile>,
    writers: &Chains<UseName, Key>,
    prefix: &[u8],
) -> Option<OpenFile>
    requires { IsIndex is_writer use_name files.now.items writers.now.entries }
    ensures first { IfSome result (IsFirstWriter (Begins prefix.now) files.now.items) }
    ensures none { IfNone result (IsNoWriter (Begins prefix.now) files.now.items) }
{
    match first_under(writers, prefix) {
        Some(key) => files.get(key).copied(),
        None => None,
    }
}

/// The first of the files open for writing whose names are not below this one.
pub(crate) fn first_writer_from(
    files: &List<OpenFile>,
    writers: &Chains<UseName, Key>,
    from: &[u8],
) -> Option<OpenFile>
    requires { IsIndex is_writer use_name files.now.items writers.now.entries }
    ensures first { IfSome result (IsFirstWriter (λ q. IsNotBelow q from.now) files.now.items) }
    ensures none { IfNone result (IsNoWriter (λ q. IsNotBelow q from.now) files.now.items) }
{
    match first_from(writers, from) {
        Some(key) => files.get(key).copied(),
        None => None,
    }
}
