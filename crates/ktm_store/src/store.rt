// The pages of an image.
ghost use Rattle.std.specs.Prelude.{◌≡◌, ℕ, ◌+◌, ◌-◌, ◌*◌, ◌<◌, ◌≤◌, ◌^◌, ◌∷◌, [], List, true, All, IfOk, OnErr, OnOk, Some, None, length, replicate};
ghost use Rattle.ktm_content.specs.Contents.{units_of, cut_to, put_over};
ghost use Rattle.ktm_store.specs.Filling.{MadeUnits};
ghost use Rattle.ktm_store.specs.Holding.{HoldsContents};
ghost use Rattle.ktm_store.specs.Marks.{Holds, IsClear, free_ahead};
ghost use Rattle.ktm_store.specs.Pool.{AreSomewhere, FillsPages, KeepsAll, LetIn, Shows, TookPages, head_of, is_kept, kept_at, tail_of};
ghost use Rattle.ktm_store.specs.Store.{AreBelow, AreHeld, IsStoredAt, IsTouched, WantsMore, pages_of, touched};
ghost use Rattle.ktm_store.specs.Stored.{is_stored};

use crate::change::Change;
use crate::frames::Frames;
use crate::marks::Marks;
use crate::stored::Stored;
use crate::units::take_units;
use ktm_base::{NoMemory, PageList, UNIT_BYTES};
use ktm_content::{Content, Placed, PlacedRef};
use std::alloc::Global;
use std::marker::Model;

// Up to so many frames no page is to be written for want of room.
const MOST_FRAMES: usize = 128;

// Nor where no more pages than these are not stored: the frames of the others are enough.
const MOST_MISSING: u32 = 64;

/// The pages of an image: which are held, which are stored, and the bytes of some of them. What is held is not written over: a change of
/// contents is made on pages that are free. A page that is stored is on the disk, or it is among those that are wanted there. The bytes of a
/// page that is not stored are in memory; of those that are stored some are, and they go where others want their room.
#[derive(Drop)]
pub struct Store {
    frames: Frames,
    marks: Marks,
    stored: Stored,
}

impl Model for Store {
    ghost use Rattle.std.specs.Prelude.{◌≡◌, length};
    ghost use Rattle.ktm_store.specs.Pool.{AreSomewhere};
    ghost use Rattle.ktm_store.specs.Store.{PoolState};

    ghost Value = { PoolState };

    ghost view = { λ s. record { seen = s.frames.kept; marks = s.marks; stored = s.stored.stored; wanted = s.stored.wanted } };

    ghost invariant = { λ s. (length s.frames.kept ≡ length s.marks.held) × (length s.stored.stored ≡ length s.marks.held) × AreSomewhere (record { seen = s.frames.kept; marks = s.marks; stored = s.stored.stored; wanted = s.stored.wanted }) };
}

impl Store {
    /// The pages of an image of so many units: all are on the disk alone, and none is held or wanted. It takes the memory for 64 pages.
    pub fn new(alloc: Global, units: u32) -> Result<Self, NoMemory>
        requires { units ≤ 2 ^ 14 }
        ensures seen { IfOk result (λ store. store.seen ≡ replicate (pages_of units) None) }
        ensures marks { IfOk result (λ store. IsClear (pages_of units) store.marks) }
        ensures stored { IfOk result (λ store. store.stored ≡ replicate (pages_of units) true) }
        ensures wanted { IfOk result (λ store. store.wanted ≡ []) }
    {
        let count = 2 * units + 64;
        let frames = Frames::new(alloc, count)?;
        let marks = Marks::new(alloc, count)?;
        let stored = Stored::new(alloc, count)?;
        Ok(Store {
            frames,
            marks,
            stored,
        })
    }

    /// How many pages there are.
    pub fn count(&self) -> u32
        ensures { result ≡ length self.now.marks.held }
    {
        self.marks.count()
    }

    /// How many pages are free until all are cleared.
    pub fn free(&self) -> u32
        ensures { result ≡ free_ahead self.now.marks }
    {
        self.marks.free()
    }

    /// Are the bytes of a page in memory.
    pub fn is_kept(&self, page: u32) -> bool
        requires { page < length self.now.marks.held }
        ensures { result ≡ is_kept self.now.seen page }
    {
        self.frames.is_kept(page)
    }

    /// The bytes of a page that is in memory.
    pub fn page(&self, page: u32) -> &[u8]
        requires below { page < length self.now.marks.held }
        requires kept { is_kept self.now.seen page ≡ true }
        ensures bytes { Some result.now ≡ kept_at self.now.seen page }
        ensures whole { length result.now ≡ 4096 }
    {
        self.frames.page(page)
    }

    /// Keeps 4,096 bytes of a page that is stored, as they were read from a disk, in the room of pages that are stored too, or in more memory
    /// where there is none. Out of memory nothing changes.
    pub fn keep(&mut self, alloc: Global, page: u32, bytes: &[u8]) -> Result<(), NoMemory>
        requires below { page < length self.old.marks.held }
        requires whole { length bytes.now ≡ 4096 }
        requires stored { is_stored self.old.stored page ≡ true }
        requires none { self.old.wanted ≡ [] }
        ensures ok { OnOk result (LetIn page bytes.now self.old self.new) }
        ensures err { OnErr result (self.new ≡ self.old) }
    {
        self.frames.reserve(self.stored.all(), 1)?;
        self.frames.put(page, &[], 0, bytes, &[]);
        Ok(())
    }

    /// Are so many pages in memory that those which are not stored are to be written.
    pub fn is_full(&self) -> bool {
        self.frames.count() > MOST_FRAMES && self.stored.missing() > MOST_MISSING
    }

    /// The pages that are to be written to the disk before anything there names them.
    pub fn wanted(&self) -> &[u32]
        ensures wanted { result.now ≡ self.now.wanted }
        ensures below { All (λ page. page < length self.now.marks.held) result.now }
        ensures stored { All (λ page. is_stored self.now.stored page ≡ true) result.now }
        ensures kept { All (λ page. is_kept self.now.seen page ≡ true) result.now }
        ensures few { length result.now ≤ length self.now.marks.held }
    {
        self.stored.wanted()
    }

    /// They were written.
    pub fn forget_wanted(&mut self)
        ensures { self.new ≡ record self.old { wanted = [] } }
    {
        self.stored.forget_wanted();
    }

    // A page is wanted on the disk, unless it is stored.
    fn want_page(&mut self, page: u32)
        requires { page < length self.old.marks.held }
        ensures wants { WantsMore self.old self.new }
        ensures stored { is_stored self.new.stored page ≡ true }
        ensures few { length self.new.wanted ≤ length self.old.wanted + 1 }
    {
        self.stored.want(page);
    }

    /// Each page that is not stored is wanted on the disk.
    pub fn want_all(&mut self)
        ensures wants { WantsMore self.old self.new }
        ensures stored { (page : ℕ) → page < length self.old.marks.held → is_stored self.new.stored page ≡ true }
    {
        for page in 0..self.count() {
            self.want_page(page);
        }
    }

    /// No page is held any more.
    pub fn clear(&mut self)
        ensures seen { self.new.seen ≡ self.old.seen }
        ensures marks { IsClear (length self.old.marks.held) self.new.marks }
        ensures stored { self.new.stored ≡ self.old.stored }
        ensures wanted { self.new.wanted ≡ self.old.wanted }
    {
        self.marks.clear();
    }

    /// Holds these pages.
    pub fn hold_all(&mut self, pages: &[u32])
        requires { All (λ page. page < length self.old.marks.held) pages.now }
        ensures seen { self.new.seen ≡ self.old.seen }
        ensures marks { Holds pages.now self.old.marks self.new.marks }
        ensures stored { self.new.stored ≡ self.old.stored }
        ensures wanted { self.new.wanted ≡ self.old.wanted }
    {
        self.marks.hold_all(pages);
    }

    /// Holds the pages of contents.
    pub fn hold(&mut self, contents: PlacedRef<'_>)
        requires { AreBelow (length self.old.marks.held) contents }
        ensures { HoldsContents (contents.entry ∷ []) (units_of contents.entry) self.old self.new }
    {
        self.hold_all(contents.pages());
    }

    /// Each of these pages is wanted on the disk, unless it is stored.
    pub fn want_pages(&mut self, pages: &[u32])
        requires { All (λ page. page < length self.old.marks.held) pages.now }
        ensures wants { WantsMore self.old self.new }
        ensures stored { All (λ page. is_stored self.new.stored page ≡ true) pages.now }
        ensures few { length self.new.wanted ≤ length self.old.wanted + length pages.now }
    {
        for page in pages {
            self.want_page(*page);
        }
    }

    /// Each page of these contents that is not stored is wanted on the disk.
    pub fn want(&mut self, contents: PlacedRef<'_>)
        requires { AreBelow (length self.old.marks.held) contents }
        ensures wants { WantsMore self.old self.new }
        ensures stored { All (IsStoredAt self.new.stored) contents.entry }
        ensures few { length self.new.wanted ≤ length self.old.wanted + units_of contents.entry }
    {
        self.want_pages(contents.pages());
    }

    // Makes the units that change of contents of this size.
    fn make(
        &mut self,
        alloc: Global,
        size: u64,
        change: &Change<'_>,
    ) -> Result<(u64, Placed), NoMemory>
        requires none { self.old.wanted ≡ [] }
        requires free { change.now.behind - change.now.first ≤ free_ahead self.old.marks }
        ensures ok { IfOk result (λ made. MadeUnits change.now size self.old self.new made.0 made.1) }
        ensures err { OnErr result (KeepsAll self.old self.new) }
    {
        let mut pages = vec![in alloc; 0u32; change.units()]?;
        self.frames.reserve(self.stored.all(), change.frames())?;
        take_units(
            &mut self.frames,
            &mut self.marks,
            &mut self.stored,
            change,
            &mut pages,
        );
        let content = Content::on_pages(change.size(size), PageList::new(pages));
        Ok((change.first() * UNIT_BYTES, Placed::new(content)))
    }

    /// Makes the units that change where bytes are put over contents, on pages that are free, while no page is wanted; a gap is filled with
    /// zeros. It is given what the contents have at both ends of these units. It answers where the first of them begins, and their content.
    /// Out of memory nothing changes, but that pages that are stored may be in memory no longer.
    pub fn write(
        &mut self,
        alloc: Global,
        old: PlacedRef<'_>,
        at: u64,
        bytes: &[u8],
        head: &[u8],
        tail: &[u8],
    ) -> Result<(u64, Placed), NoMemory>
        requires held { AreHeld self.old.marks.held old }
        requires none { self.old.wanted ≡ [] }
        requires some { 0 < length bytes.now }
        requires ends { at + length bytes.now < 2 ^ 63 }
        requires free { touched (length old) at (at + length bytes.now) ≤ free_ahead self.old.marks }
        requires head { length head.now ≡ length (head_of old at) }
        requires tail { length tail.now ≡ length (tail_of old (at + length bytes.now)) }
        ensures took { IfOk result (λ made. TookPages (touched (length old.entry) at (at + length bytes.now)) old.entry self.old self.new made.0 made.1) }
        ensures touched { IfOk result (λ made. IsTouched (length old.entry) at (at + length bytes.now) made.0 made.1) }
        ensures fills { IfOk result (λ made. FillsPages (λ before. put_over before at bytes.now) old.entry self.old self.new made.0 made.1 (λ before. (head.now ≡ head_of before at) × (tail.now ≡ tail_of before (at + length bytes.now)))) }
        ensures err { OnErr result (KeepsAll self.old self.new) }
    {
        let len = old.len();
        let change = Change::new(len, at, bytes, head, tail);
        self.make(alloc, len, &change)
    }

    /// Makes the units that change where contents become longer, with zeros, as `write` does. It is given what they have in their last unit,
    /// where that is not whole. A unit of zeros alone takes no memory for its bytes.
    pub fn grow(
        &mut self,
        alloc: Global,
        old: PlacedRef<'_>,
        size: u64,
        head: &[u8],
    ) -> Result<(u64, Placed), NoMemory>
        requires held { AreHeld self.old.marks.held old }
        requires none { self.old.wanted ≡ [] }
        requires longer { length old < size }
        requires ends { size < 2 ^ 63 }
        requires free { touched (length old) size size ≤ free_ahead self.old.marks }
        requires head { length head.now ≡ length (head_of old size) }
        ensures took { IfOk result (λ made. TookPages (touched (length old.entry) size size) old.entry self.old self.new made.0 made.1) }
        ensures touched { IfOk result (λ made. IsTouched (length old.entry) size size made.0 made.1) }
        ensures fills { IfOk result (λ made. FillsPages (λ before. cut_to before size) old.entry self.old self.new made.0 made.1 (λ before. head.now ≡ head_of before size)) }
        ensures err { OnErr result (KeepsAll self.old self.new) }
    {
        let len = old.len();
        let change = Change::new(len, size, &[], head, &[]);
        self.make(alloc, len, &change)
    }
}

/// What is so of each store: it shows a row, and each of its pages is somewhere.
pub fn law_of_rows(store: &Store)
    ensures rows { (row : List ℕ) × Shows store.now row }
    ensures count { length store.now.seen ≡ length store.now.marks.held }
    ensures somewhere { AreSomewhere store.now }
{
    store.frames.count();
}
