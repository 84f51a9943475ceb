// The files that a transaction wrote.
ghost use Rattle.std.specs.Prelude.{◌≡◌, ◌<◌, ◌≤◌, ◌^◌, ◌+◌, ◌++◌, [], All, None, IsOk, OnOk, OnErr, IfNone, option_copied, option_to_list};
ghost use Rattle.std.specs.Option.{option_map};
ghost use Rattle.txf_overlay.specs.Edits.{edited, reach, CanEdit};
ghost use Rattle.txf_overlay.specs.Files.{files_in, AreFiles};
ghost use Rattle.txf_overlay.specs.Pages.{LieOnPages};
ghost use Rattle.txf_overlay.specs.Written.{HasBytes, AreFilesRising, bytes_at, bytes_or, file_of, first_from, total_units, with_bytes, with_made, without_file};

use crate::written::{Edit, WrittenFile};
use ktm_base::NoMemory;
use ktm_content::PlacedRef;
use ktm_links::Chains;
use ktm_world::NodeKind;
use std::alloc::Global;
use std::marker::Model;
use txf_tree::{NumberName, number_bytes};

/// The files that a transaction wrote, by number.
#[derive(Drop)]
pub(crate) struct WrittenFiles {
    alloc: Global,
    map: Chains<NumberName, WrittenFile>,
    // How many units of 4,096 bytes all of them take.
    units: u64,
}

impl Model for WrittenFiles {
    ghost use Rattle.txf_overlay.specs.Files.{FilesState};

    ghost Value = { FilesState };

    ghost use Rattle.txf_overlay.specs.Files.{files_in, AreCounted};

    ghost view = { λ f. record { written = files_in f.map.entries; spare = f.map.spare } };

    ghost invariant = { λ f. AreCounted f.map.entries f.units };
}

// The first file, by number, whose number is not below this one.
fn file_from(map: &Chains<NumberName, WrittenFile>, from: u64) -> Option<&WrittenFile>
    requires { AreFiles map.now.entries }
    ensures { option_copied result ≡ first_from (files_in map.now.entries) from }
{
    match map.first_from(&number_bytes(from)) {
        Some(key) => map.get(key),
        None => None,
    }
}

impl WrittenFiles {
    /// No files.
    pub(crate) fn new(alloc: Global) -> Self
        ensures { result.written ≡ [] }
    {
        WrittenFiles {
            alloc,
            map: Chains::new(alloc),
            units: 0,
        }
    }

    /// The numbers rise, and the bytes lie on pages.
    pub(crate) fn law_of_files(&self)
        ensures rise { AreFilesRising self.now.written }
        ensures pages { All (λ w. LieOnPages w.bytes) self.now.written }
    {
        let _ = &self.alloc;
    }

    /// How many units of 4,096 bytes they take.
    pub(crate) fn units(&self) -> u64
        ensures { result ≡ total_units self.now.written }
    {
        self.units
    }

    /// How many more files can come without memory.
    pub(crate) fn spare(&self) -> usize
        ensures { result ≡ self.now.spare }
    {
        self.map.spare()
    }

    /// Makes room for so many more files.
    pub(crate) fn reserve(&mut self, n: usize) -> Result<(), NoMemory>
        ensures room { OnOk result (n ≤ self.new.spare) }
        ensures enough { n ≤ self.old.spare → IsOk result }
        ensures written { self.new.written ≡ self.old.written }
        ensures spare { self.old.spare ≤ self.new.spare }
    {
        self.map.reserve(n)
    }

    // The file with the number.
    fn get(&self, file: u64) -> Option<&WrittenFile>
        ensures { option_copied result ≡ option_map (file_of file) (bytes_at self.now.written file) }
    {
        match self.map.find(&number_bytes(file)) {
            Some(key) => self.map.get(key),
            None => None,
        }
    }

    /// All bytes of a file.
    pub(crate) fn bytes(&self, file: u64) -> Option<PlacedRef<'_>>
        ensures { result ≡ bytes_at self.now.written file }
    {
        match self.get(file) {
            Some(written) => Some(written.bytes()),
            None => None,
        }
    }

    /// The first file, by number, whose number is not below this one.
    pub(crate) fn first_from(&self, from: u64) -> Option<&WrittenFile>
        ensures { option_copied result ≡ first_from self.now.written from }
    {
        file_from(&self.map, from)
    }

    /// The first file, by number, behind this one.
    pub(crate) fn first_behind(&self, file: u64) -> Option<&WrittenFile>
        ensures { option_copied result ≡ first_from self.now.written (file + 1) }
    {
        let map = &self.map;
        match file.checked_add(1) {
            Some(from) => file_from(map, from),
            None => None,
        }
    }

    /// Changes the bytes of a file where it stands; one that is not written has these first bytes before, and comes to the
    /// others, with room made for so many. It fails where it is out of memory.
    pub(crate) fn edit(
        &mut self,
        room: usize,
        file: u64,
        first: PlacedRef<'_>,
        edit: Edit<'_>,
    ) -> Result<(), NoMemory>
        requires room { 0 < room }
        requires can { CanEdit (bytes_or first (bytes_at self.old.written file)) edit }
        requires few { total_units (with_bytes self.old.written file (edited (bytes_or first (bytes_at self.old.written file)) edit)) < 2 ^ 64 }
        ensures ok { OnOk result (self.new.written ≡ with_bytes self.old.written file (edited (bytes_or first.entry (bytes_at self.old.written file)) edit.entry)) }
        ensures err { OnErr result (self.new.written ≡ self.old.written) }
        ensures enough { HasBytes self.old.written file (reach edit.entry) → IsOk result }
        ensures spare { room ≤ self.old.spare + 1 → room ≤ self.new.spare + 1 }
    {
        let Some(written) = self.map.find_mut(&number_bytes(file)) else {
            return self.edit_new(room, file, first, edit);
        };
        let before = written.units();
        if let Err(NoMemory) = written.edit(edit) {
            return Err(NoMemory);
        }
        let after = written.units();
        self.units = self.units - before + after;
        Ok(())
    }

    // Puts a file that is not written to the others, with these first bytes changed.
    fn edit_new(
        &mut self,
        room: usize,
        file: u64,
        first: PlacedRef<'_>,
        edit: Edit<'_>,
    ) -> Result<(), NoMemory>
        requires absent { bytes_at self.old.written file ≡ None }
        requires room { 0 < room }
        requires can { CanEdit first edit }
        requires few { total_units (with_bytes self.old.written file (edited first edit)) < 2 ^ 64 }
        ensures ok { OnOk result (self.new.written ≡ with_bytes self.old.written file (edited first.entry edit.entry)) }
        ensures err { OnErr result (self.new.written ≡ self.old.written) }
        ensures spare { room ≤ self.old.spare + 1 → room ≤ self.new.spare + 1 }
    {
        self.map.reserve(room)?;
        let mut written = WrittenFile::copy(self.alloc, file, first)?;
        written.edit(edit)?;
        self.units += written.units();
        self.map.insert(number_bytes(file), written);
        Ok(())
    }

    /// A node that is made is written, without bytes, if it is a file.
    pub(crate) fn add(&mut self, node: u64, kind: NodeKind)
        requires spare { 0 < self.old.spare }
        ensures written { self.new.written ≡ with_made self.old.written node kind }
        ensures spare { self.old.spare ≤ self.new.spare + 1 }
    {
        match kind {
            NodeKind::File => self.add_file(node),
            NodeKind::Directory => {}
        }
    }

    // A file is written, without bytes, if it was not.
    fn add_file(&mut self, file: u64)
        requires spare { 0 < self.old.spare }
        ensures written { self.new.written ≡ with_bytes self.old.written file (bytes_or [] (bytes_at self.old.written file)) }
        ensures spare { self.old.spare ≤ self.new.spare + 1 }
    {
        if let Some(_) = self.get(file) {
            return;
        }
        self.map
            .insert(number_bytes(file), WrittenFile::empty(self.alloc, file));
    }

    /// Takes a file out, if it is written.
    pub(crate) fn remove(&mut self, file: u64) -> Option<WrittenFile>
        ensures file { result ≡ option_map (file_of file) (bytes_at self.old.written file) }
        ensures written { self.new.written ≡ without_file self.old.written file }
        ensures spare { self.old.spare ≤ self.new.spare }
    {
        match self.map.remove(&number_bytes(file)) {
            Some(written) => {
                self.units -= written.units();
                Some(written)
            }
            None => None,
        }
    }

    /// Takes out the first file, by number.
    pub(crate) fn pop(&mut self) -> Option<WrittenFile>
        ensures written { self.old.written ≡ option_to_list result ++ self.new.written }
        ensures none { IfNone result (self.new.written ≡ []) }
        ensures spare { self.old.spare ≤ self.new.spare }
    {
        self.law_of_files();
        let file = match self.first_from(0) {
            Some(written) => written.file(),
            None => return None,
        };
        self.remove(file)
    }
}
