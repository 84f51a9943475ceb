// The bytes of the pages that are in memory.
ghost use Rattle.std.specs.Prelude.{◌≡◌, ℕ, ◌+◌, ◌*◌, ◌<◌, ◌≤◌, IfOk, List, OnErr, OnOk, Some, None, true, length, replicate, set, slice_index};
ghost use Rattle.ktm_content.specs.Contents.{cut_to};
ghost use Rattle.ktm_store.specs.Frames.{HasStill, filled, zeros};
ghost use Rattle.ktm_store.specs.Pool.{is_kept, kept_at};

use crate::owners::Owners;
use ktm_base::{NoMemory, UNIT_BYTES};
use std::alloc::Global;
use std::marker::Model;

// The bytes of a page.
const PAGE_BYTES: usize = UNIT_BYTES as usize;

// How many frames there are at first, besides the blank one.
const FRAMES_AT_FIRST: usize = 64;

/// Which pages are in memory, with their bytes.
#[derive(Drop)]
pub(crate) struct Frames {
    // The frames, one behind another; the first is blank.
    bytes: Vec<u8>,
    owners: Owners,
}

impl Model for Frames {
    ghost use Rattle.ktm_store.specs.Frames.{AreFrames, FramesState, kept_in};

    ghost Value = { FramesState };

    ghost view = { λ f. record { kept = kept_in f.bytes.items f.owners.at; spare = f.owners.spare } };

    ghost invariant = { λ f. AreFrames f.owners.count f.bytes.items };
}

// Where a frame begins.
fn begin_of(frame: u32) -> usize
    ensures { result ≡ frame * 4096 }
{
    frame as usize * PAGE_BYTES
}

// So many bytes, all zero.
fn zero_bytes(alloc: Global, count: usize) -> Result<Vec<u8>, NoMemory>
    ensures long { IfOk result (λ v. length v.items ≡ count) }
    ensures zero { IfOk result (λ v. (k : ℕ) → slice_index v.items k ≡ 0) }
{
    Ok(vec![in alloc; 0u8; count]?)
}

// Clears a page.
fn clear(page: &mut [u8])
    requires { length page.old ≡ 4096 }
    ensures { page.new ≡ zeros }
{
    page.fill(0);
}

// Puts bytes in place of the first ones, and zeros in place of the others.
fn put_padded(part: &mut [u8], bytes: &[u8])
    requires { length bytes.now ≤ length part.old }
    ensures { part.new ≡ cut_to bytes.now (length part.old) }
{
    part[..bytes.len()].copy_from_slice(bytes);
    part[bytes.len()..].fill(0);
}

// Fills a page.
fn fill(page: &mut [u8], head: &[u8], from: usize, bytes: &[u8], tail: &[u8])
    requires whole { length page.old ≡ 4096 }
    requires head { length head.now ≤ from }
    requires fits { from + length bytes.now + length tail.now ≤ 4096 }
    ensures { page.new ≡ filled head.now from bytes.now tail.now }
{
    let to = from + bytes.len();
    put_padded(&mut page[..from], head);
    page[from..to].copy_from_slice(bytes);
    put_padded(&mut page[to..], tail);
}

impl Frames {
    /// Of so many pages none is in memory. It takes the memory of 64 pages.
    pub fn new(alloc: Global, pages: u32) -> Result<Self, NoMemory>
        ensures { IfOk result (λ frames. frames.kept ≡ replicate pages None) }
    {
        let bytes = zero_bytes(alloc, PAGE_BYTES)?;
        let owners = Owners::new(alloc, pages)?;
        let mut frames = Frames { bytes, owners };
        frames.bytes.reserve(FRAMES_AT_FIRST * PAGE_BYTES)?;
        frames.add_up_to(FRAMES_AT_FIRST)?;
        Ok(frames)
    }

    /// How many frames there are.
    pub fn count(&self) -> usize
        ensures whole { (page : ℕ) (bytes : List ℕ) → kept_at self.now.kept page ≡ Some bytes → length bytes ≡ 4096 }
    {
        self.owners.count()
    }

    /// Are the bytes of a page in memory.
    pub fn is_kept(&self, page: u32) -> bool
        requires { page < length self.now.kept }
        ensures { result ≡ is_kept self.now.kept page }
    {
        self.owners.frame(page).is_some()
    }

    /// The bytes of a page that is in memory.
    pub fn page(&self, page: u32) -> &[u8]
        requires below { page < length self.now.kept }
        requires kept { is_kept self.now.kept page ≡ true }
        ensures bytes { Some result.now ≡ kept_at self.now.kept page }
        ensures whole { length result.now ≡ 4096 }
    {
        let Some(frame) = self.owners.frame(page) else {
            unreachable!();
        };
        let begin = begin_of(frame);
        &self.bytes[begin..begin + PAGE_BYTES]
    }

    // There is one frame more, which is spare.
    fn add(&mut self) -> Result<(), NoMemory>
        ensures kept { self.new.kept ≡ self.old.kept }
        ensures spare { OnOk result (self.new.spare ≡ self.old.spare + 1) }
        ensures err { OnErr result (self.new.spare ≡ self.old.spare) }
    {
        let count = self.owners.count();
        self.bytes.resize((count + 1) * PAGE_BYTES, 0)?;
        self.owners.add()?;
        Ok(())
    }

    // How many frames are spare.
    fn spare(&self) -> usize
        ensures { result ≡ self.now.spare }
    {
        self.owners.spare()
    }

    // There are more frames, until so many are spare.
    fn add_up_to(&mut self, spare: usize) -> Result<(), NoMemory>
        ensures kept { self.new.kept ≡ self.old.kept }
        ensures spare { OnOk result (spare ≤ self.new.spare) }
        ensures err { OnErr result (self.old.spare < spare) }
    {
        for _ in self.spare()..spare {
            self.add()?;
        }
        Ok(())
    }

    /// So many frames are spare. Pages that are stored give up theirs, and where these are too few, there are more frames. Where there is no
    /// memory for one, no page has given up its own.
    pub fn reserve(&mut self, stored: &[bool], spare: usize) -> Result<(), NoMemory>
        requires { length stored.now ≡ length self.old.kept }
        ensures went { (page : ℕ) → HasStill stored.now self.old.kept self.new.kept page }
        ensures long { length self.new.kept ≡ length self.old.kept }
        ensures spare { OnOk result (spare ≤ self.new.spare) }
        ensures one { OnErr result (spare ≤ 1 → self.new.kept ≡ self.old.kept) }
    {
        self.owners.give_up(stored, spare)?;
        self.add_up_to(spare)
    }

    /// A page is in memory, filled with these bytes.
    pub fn put(&mut self, page: u32, head: &[u8], from: usize, bytes: &[u8], tail: &[u8])
        requires below { page < length self.old.kept }
        requires spare { 0 < self.old.spare }
        requires head { length head.now ≤ from }
        requires fits { from + length bytes.now + length tail.now ≤ 4096 }
        ensures kept { self.new.kept ≡ set self.old.kept page (Some (filled head.now from bytes.now tail.now)) }
        ensures spare { self.old.spare ≤ self.new.spare + 1 }
    {
        let frame = self.owners.take(page);
        let begin = begin_of(frame);
        fill(
            &mut self.bytes[begin..begin + PAGE_BYTES],
            head,
            from,
            bytes,
            tail,
        );
    }

    /// A page is in memory, and all its bytes are zero. It takes no frame.
    pub fn blank(&mut self, page: u32)
        requires { page < length self.old.kept }
        ensures kept { self.new.kept ≡ set self.old.kept page (Some zeros) }
        ensures spare { self.new.spare ≡ self.old.spare }
    {
        let Some(frame) = self.owners.own(page) else {
            self.owners.blank(page);
            return;
        };
        let begin = begin_of(frame);
        clear(&mut self.bytes[begin..begin + PAGE_BYTES]);
    }
}
