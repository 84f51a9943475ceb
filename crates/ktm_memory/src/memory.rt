// What the machine holds in memory: its layers, of which its journal is one.
ghost use Rattle.std.specs.Prelude.{◌≡◌, true, false, []};

use ktm_journal::Journal;
use ktm_object::Handles;
use ktm_tm::Tm;
use ktm_trace::Trace;
use kv_rm::KvRm;
use std::alloc::Global;
use std::marker::Model;
use txf_calls::Volume;
use txf_volume::Files;

/// The layers of the machine, and whether it is up.
#[derive(Drop)]
pub struct Memory {
    pub(crate) is_up: bool,
    pub(crate) journal: Journal,
    pub(crate) handles: Handles,
    pub(crate) tm: Tm,
    // Of the transactions that the log has, what is to be seen nowhere else.
    pub(crate) trace: Trace,
    pub(crate) files: Files,
    // The number of the next node by what was recorded, which is not above that of the files: those of transactions count.
    pub(crate) next_node: u64,
    pub(crate) keys: KvRm,
}

impl Model for Memory {
    ghost use Rattle.ktm_memory.specs.Memory.{MemoryState};

    ghost Value = { MemoryState };

    ghost view = { λ m. record { is_up = m.is_up; journal = m.journal; handles = m.handles; tm = m.tm; trace = m.trace; files = m.files; next_node = m.next_node; keys = m.keys } };
}

impl Memory {
    /// What a machine that starts holds: its journal, what was brought back of transactions and resource managers, what the log
    /// has of transactions, and the files and the keys, with what transactions in doubt changed and set. The next node is the one
    /// that is recorded.
    pub fn start(
        alloc: Global,
        journal: Journal,
        tm: Tm,
        trace: Trace,
        files: Files,
        keys: KvRm,
    ) -> Self
        ensures up { result.is_up ≡ true }
        ensures journal { result.journal ≡ journal }
        ensures tm { result.tm ≡ tm }
        ensures trace { result.trace ≡ trace }
        ensures files { result.files ≡ files }
        ensures keys { result.keys ≡ keys }
        ensures next_node { result.next_node ≡ files.next_node }
        ensures handles { result.handles.handles ≡ [] }
    {
        let next_node = files.next_node();
        Memory {
            is_up: true,
            journal,
            handles: Handles::new(alloc),
            tm,
            trace,
            files,
            next_node,
            keys,
        }
    }

    /// Is the machine up.
    pub fn is_up(&self) -> bool
        ensures { result ≡ self.now.is_up }
    {
        self.is_up
    }

    /// The journal.
    pub fn journal(&self) -> &Journal
        ensures { result.now ≡ self.now.journal }
    {
        &self.journal
    }

    /// The handles.
    pub fn handles(&self) -> &Handles
        ensures { result.now ≡ self.now.handles }
    {
        &self.handles
    }

    /// The transactions.
    pub fn tm(&self) -> &Tm
        ensures { result.now ≡ self.now.tm }
    {
        &self.tm
    }

    /// The files.
    pub fn files(&self) -> &Files
        ensures { result.now ≡ self.now.files }
    {
        &self.files
    }

    /// The keys.
    pub fn keys(&self) -> &KvRm
        ensures { result.now ≡ self.now.keys }
    {
        &self.keys
    }

    /// Of the transactions that the log has, what is to be seen nowhere else.
    pub fn trace(&self) -> &Trace
        ensures { result.now ≡ self.now.trace }
    {
        &self.trace
    }

    /// The number of the next node, by what was recorded.
    pub fn next_node(&self) -> u64
        ensures { result ≡ self.now.next_node }
    {
        self.next_node
    }

    /// The machine is down.
    pub fn fall(&mut self)
        ensures { self.new ≡ record self.old { is_up = false } }
    {
        self.is_up = false;
    }
}
