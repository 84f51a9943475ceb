// A file whose bytes a transaction wrote.
ghost use Rattle.std.specs.Prelude.{◌≡◌, ◌+◌, ◌<◌, ◌≤◌, ◌^◌, All, length, [], IfOk, IsOk, OnOk, OnErr};
ghost use Rattle.ktm_content.specs.Places.{CanBePut};
ghost use Rattle.ktm_world.specs.Tree.{cut_to, put_over, units_of};
ghost use Rattle.txf_overlay.specs.Edits.{edited, reach, CanEdit};
ghost use Rattle.txf_overlay.specs.Pages.{LieOnPages, pages_in};

use ktm_base::NoMemory;
use ktm_content::{Content, Placed, PlacedRef};
use std::alloc::Global;
use std::marker::Model;

/// What is done to the bytes of a file.
#[derive(Drop)]
pub(crate) enum Edit<'a> {
    /// A part is put over what is there, from the begin of a unit on.
    Put { start: u64, part: PlacedRef<'a> },
    /// So many are left, and no more than there are.
    Cut { size: u64 },
}

/// The number of a file, and all of its bytes as the transaction sees them.
#[derive(Drop)]
pub struct WrittenFile {
    file: u64,
    content: Content,
}

impl Model for WrittenFile {
    ghost use Rattle.txf_overlay.specs.OverlayState.{Written};

    ghost Value = { Written };

    ghost view = { λ w. record { file = w.file; bytes = w.content.bytes } };
}

// How many pages there are, of which each has a number of four bytes.
fn count_of(pages: &[u32]) -> usize
    ensures count { result ≡ length pages.now }
    ensures fit { All (λ page. page < 2 ^ 32) pages.now }
{
    pages.len()
}

impl WrittenFile {
    // A file with no bytes.
    pub(crate) fn empty(alloc: Global, file: u64) -> Self
        ensures { result ≡ record { file = file; bytes = [] } }
    {
        WrittenFile {
            file,
            content: Content::new(alloc),
        }
    }

    // A file with these bytes, on the same pages.
    pub(crate) fn copy(alloc: Global, file: u64, bytes: PlacedRef<'_>) -> Result<Self, NoMemory>
        ensures { IfOk result (λ w. w ≡ record { file = file; bytes = bytes.entry }) }
    {
        let content = bytes.copy(alloc)?;
        Ok(WrittenFile { file, content })
    }

    /// The number of the file.
    pub fn file(&self) -> u64
        ensures { result ≡ self.now.file }
    {
        self.file
    }

    pub fn bytes(&self) -> PlacedRef<'_>
        ensures { result ≡ self.now.bytes }
    {
        self.content.lend()
    }

    /// The page of each unit.
    pub fn pages(&self) -> &[u32]
        ensures { result.now ≡ pages_in self.now.bytes }
    {
        self.content.pages()
    }

    /// The bytes, with their memory.
    pub fn into_bytes(self) -> Placed
        ensures { result ≡ self.bytes }
    {
        let WrittenFile { content, .. } = self;
        Placed::new(content)
    }

    // How many units of 4,096 bytes they take.
    pub(crate) fn units(&self) -> u64
        ensures units { result ≡ units_of self.now.bytes }
        ensures pages { LieOnPages self.now.bytes }
    {
        count_of(self.content.pages()) as u64
    }

    // Puts a part over what is there, from the begin of a unit on.
    fn put(&mut self, start: u64, part: PlacedRef<'_>) -> Result<(), NoMemory>
        requires { CanBePut self.old.bytes start part }
        ensures ok { OnOk result (self.new ≡ record self.old { bytes = put_over self.old.bytes start part.entry }) }
        ensures err { OnErr result (self.new ≡ self.old) }
        ensures enough { start + length part.entry ≤ length self.old.bytes → IsOk result }
    {
        self.content.reserve(start, part.len())?;
        self.content.put(start, part);
        Ok(())
    }

    // Leaves so many bytes.
    fn cut(&mut self, size: u64)
        requires { size ≤ length self.old.bytes }
        ensures { self.new ≡ record self.old { bytes = cut_to self.old.bytes size } }
    {
        self.content.cut(size);
    }

    /// Changes the bytes. It fails where it is out of memory; a change within the bytes that are there takes none.
    pub(crate) fn edit(&mut self, edit: Edit<'_>) -> Result<(), NoMemory>
        requires { CanEdit self.old.bytes edit }
        ensures ok { OnOk result (self.new ≡ record self.old { bytes = edited self.old.bytes edit.entry }) }
        ensures err { OnErr result (self.new ≡ self.old) }
        ensures enough { reach edit.entry ≤ length self.old.bytes → IsOk result }
    {
        match edit {
            Edit::Put { start, part } => self.put(start, part),
            Edit::Cut { size } => {
                self.cut(size);
                Ok(())
            }
        }
    }
}
