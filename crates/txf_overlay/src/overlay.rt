// What a transaction changed.
ghost use Rattle.std.specs.Prelude.{◌≡◌, ◌<◌, ◌≤◌, ◌^◌, ◌+◌, [], All, true, length, not, IsOk, OnOk, OnErr, IfNone, ◌++◌, option_to_list};
ghost use Rattle.std.specs.List.{list_all};
ghost use Rattle.std.specs.Option.{option_copied, option_map};
ghost use Rattle.ktm_content.specs.Places.{CanBePut};
ghost use Rattle.txf_overlay.specs.Written.{HasBytes, AreFilesRising, bytes_at, bytes_or, first_from, total_units, with_bytes};
ghost use Rattle.txf_overlay.specs.OverlayState.{is_of_names, own_of};
ghost use Rattle.txf_overlay.specs.Pages.{LieOnPages};
ghost use Rattle.ktm_world.specs.Changes.{has_changes, has_made, nodes_made};
ghost use Rattle.ktm_world.specs.Tree.{cut_to, put_over};

use crate::files::WrittenFiles;
use crate::node::{Nodes, seen};
use crate::written::{Edit, WrittenFile};
use ktm_base::NoMemory;
use ktm_content::PlacedRef;
use ktm_links::Chains;
use ktm_world::Change;
use std::alloc::Global;
use std::marker::Model;
use std::mem::replace;
use txf_tree::ChildName;

/// What one transaction made, moved and dropped, in order, and the bytes of the files that it wrote.
#[derive(Drop)]
pub struct Overlay {
    pub(crate) alloc: Global,
    pub(crate) names: Vec<Change>,
    // What became of each node that it made, moved or dropped.
    pub(crate) nodes: Nodes,
    // Which node stands now at each place that it held.
    pub(crate) seats: Chains<ChildName, Option<u64>>,
    pub(crate) files: WrittenFiles,
    // How many nodes it made and did not drop.
    pub(crate) made: usize,
}

impl Model for Overlay {
    ghost use Rattle.std.specs.Prelude.{◌-◌, ◌/◌, min, vec_len, vec_capacity};
    ghost use Rattle.txf_overlay.specs.OverlayState.{OverlayState};

    ghost Value = { OverlayState };

    ghost use Rattle.txf_overlay.specs.Kept.{seats_in, AreNamesKept};

    ghost view = { λ o. record {
      names = o.names.items;
      held = seats_in o.seats.entries;
      written = o.files.written;
      spare = min (vec_capacity o.names - vec_len o.names) (min o.nodes.spare (min (o.seats.spare / 2) o.files.spare));
    } };

    ghost invariant = { λ o. AreNamesKept o.names.items o.nodes.entries o.made };
}

impl Overlay {
    /// What changes nothing.
    pub fn new(alloc: Global) -> Self
        ensures names { result.names ≡ [] }
        ensures held { result.held ≡ [] }
        ensures written { result.written ≡ [] }
    {
        Overlay {
            alloc,
            names: Vec::new(alloc),
            nodes: Chains::new(alloc),
            seats: Chains::new(alloc),
            files: WrittenFiles::new(alloc),
            made: 0,
        }
    }

    /// What it made, moved and dropped, in order.
    pub fn names(&self) -> &[Change]
        ensures names { result.now ≡ self.now.names }
        ensures only { list_all is_of_names self.now.names ≡ true }
        ensures rise { AreFilesRising self.now.written }
    {
        self.files.law_of_files();
        &self.names
    }

    /// The numbers of the files that it wrote rise, and their bytes lie on pages.
    pub fn law_of_files(&self)
        ensures rise { AreFilesRising self.now.written }
        ensures pages { All (λ w. LieOnPages w.bytes) self.now.written }
    {
        self.files.law_of_files();
    }

    /// How many changes of names there are.
    pub fn changes_len(&self) -> usize
        ensures { result ≡ length self.now.names }
    {
        self.names.len()
    }

    /// Has it changed nothing.
    pub fn is_empty(&self) -> bool
        ensures { result ≡ not (has_changes (own_of self.now)) }
    {
        match self.written_from(0) {
            Some(_) => false,
            None => self.names().is_empty(),
        }
    }

    /// The first file, by number, that is written and whose number is not below this one: so all of them one after another.
    pub fn written_from(&self, from: u64) -> Option<&WrittenFile>
        ensures { option_copied result ≡ first_from self.now.written from }
    {
        self.files.first_from(from)
    }

    /// The first file, by number, that is written behind this one.
    pub fn written_behind(&self, file: u64) -> Option<&WrittenFile>
        ensures { option_copied result ≡ first_from self.now.written (file + 1) }
    {
        self.files.first_behind(file)
    }

    /// Has it made the node, whatever it did with it then.
    pub fn has_made(&self, node: u64) -> bool
        ensures { result ≡ has_made self.now.names node }
    {
        match seen(&self.nodes, node) {
            Some(seen) => seen.made.is_some(),
            None => false,
        }
    }

    /// All bytes of a file that it wrote, lent.
    pub fn bytes(&self, file: u64) -> Option<PlacedRef<'_>>
        ensures { result ≡ bytes_at self.now.written file }
    {
        self.files.bytes(file)
    }

    /// How many bytes a file has that it wrote.
    pub fn size(&self, file: u64) -> Option<u64>
        ensures { result ≡ option_map (λ bytes. length bytes) (bytes_at self.now.written file) }
    {
        match self.bytes(file) {
            Some(bytes) => Some(bytes.len()),
            None => None,
        }
    }

    /// How many nodes there are that it made and did not drop.
    pub fn nodes_made(&self) -> usize
        ensures { result ≡ nodes_made self.now.names }
    {
        self.made
    }

    /// How many units of 4,096 bytes the files take that it wrote.
    pub fn units(&self) -> u64
        ensures { result ≡ total_units self.now.written }
    {
        self.files.units()
    }

    /// For how many changes of names, and files, there is room.
    pub fn spare(&self) -> usize
        ensures { result ≡ self.now.spare }
    {
        let names = self.names.capacity() - self.names.len();
        let maps = (self.seats.spare() / 2).min(self.files.spare());
        names.min(self.nodes.spare().min(maps))
    }

    /// Makes room for so many more changes of names, and files.
    pub fn reserve(&mut self, n: usize) -> Result<(), NoMemory>
        ensures room { OnOk result (n ≤ self.new.spare) }
        ensures enough { n ≤ self.old.spare → IsOk result }
        ensures same { n ≤ self.old.spare → self.new ≡ self.old }
        ensures names { self.new.names ≡ self.old.names }
        ensures held { self.new.held ≡ self.old.held }
        ensures written { self.new.written ≡ self.old.written }
        ensures spare { self.old.spare ≤ self.new.spare }
    {
        if n <= self.spare() {
            return Ok(());
        }
        let Some(places) = n.checked_mul(2) else {
            return Err(NoMemory);
        };
        self.names.reserve(n)?;
        self.nodes.reserve(n)?;
        self.seats.reserve(places)?;
        self.files.reserve(n)
    }

    /// Puts a part over the bytes of a file, from the begin of a unit on. A file that is not written has these first bytes before,
    /// on the same pages. It fails where it is out of memory.
    pub fn put(
        &mut self,
        file: u64,
        first: PlacedRef<'_>,
        start: u64,
        part: PlacedRef<'_>,
    ) -> Result<(), NoMemory>
        requires can { CanBePut (bytes_or first (bytes_at self.old.written file)) start part }
        requires few { total_units (with_bytes self.old.written file (put_over (bytes_or first (bytes_at self.old.written file)) start part)) < 2 ^ 64 }
        ensures ok { OnOk result (self.new.written ≡ with_bytes self.old.written file (put_over (bytes_or first.entry (bytes_at self.old.written file)) start part.entry)) }
        ensures err { OnErr result (self.new.written ≡ self.old.written) }
        ensures enough { HasBytes self.old.written file (start + length part.entry) → IsOk result }
        ensures names { self.new.names ≡ self.old.names }
        ensures held { self.new.held ≡ self.old.held }
        ensures spare { self.old.spare ≤ self.new.spare }
    {
        let room = self.spare() + 1;
        self.files
            .edit(room, file, first, Edit::Put { start, part })
    }

    /// Leaves so many bytes of a file, and no more than it has. A file that is not written has these first bytes before, on the
    /// same pages. It fails where it is out of memory.
    pub fn cut(&mut self, file: u64, first: PlacedRef<'_>, size: u64) -> Result<(), NoMemory>
        requires shorter { size ≤ length (bytes_or first (bytes_at self.old.written file)) }
        requires few { total_units (with_bytes self.old.written file (cut_to (bytes_or first (bytes_at self.old.written file)) size)) < 2 ^ 64 }
        ensures ok { OnOk result (self.new.written ≡ with_bytes self.old.written file (cut_to (bytes_or first.entry (bytes_at self.old.written file)) size)) }
        ensures err { OnErr result (self.new.written ≡ self.old.written) }
        ensures enough { HasBytes self.old.written file size → IsOk result }
        ensures names { self.new.names ≡ self.old.names }
        ensures held { self.new.held ≡ self.old.held }
        ensures spare { self.old.spare ≤ self.new.spare }
    {
        let room = self.spare() + 1;
        self.files.edit(room, file, first, Edit::Cut { size })
    }

    /// Takes out the first file, by number, with its bytes, as a commit needs them. It takes no memory.
    pub fn pop_written(&mut self) -> Option<WrittenFile>
        ensures written { self.old.written ≡ option_to_list result ++ self.new.written }
        ensures none { IfNone result (self.new.written ≡ []) }
        ensures names { self.new.names ≡ self.old.names }
        ensures held { self.new.held ≡ self.old.held }
        ensures spare { self.old.spare ≤ self.new.spare }
    {
        self.files.pop()
    }

    /// Hands out what it made, moved and dropped, in order, with its memory, and leaves what it wrote. It takes no memory.
    pub fn take_names(&mut self) -> Vec<Change>
        ensures names { result.items ≡ self.old.names }
        ensures left { self.new.names ≡ [] }
        ensures held { self.new.held ≡ [] }
        ensures written { self.new.written ≡ self.old.written }
    {
        self.nodes = Chains::new(self.alloc);
        self.seats = Chains::new(self.alloc);
        self.made = 0;
        replace(&mut self.names, Vec::new(self.alloc))
    }
}
