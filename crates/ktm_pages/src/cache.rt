// Pages that are kept in memory.
ghost use Rattle.std.specs.Prelude.{◌≡◌, ℕ, ◌<◌, [], None, length, true, false, Contains, IsTrue, IfOk, IfSome, OnErr, OnOk, is_err};
ghost use Rattle.ktm_base.specs.Disk.{DeviceCalls};
ghost use Rattle.ktm_base.specs.Told.{Goes};
ghost use Rattle.ktm_page.specs.Row.{LostPage, WrotePage, page_of};
ghost use Rattle.ktm_pages.specs.Cache.{Agrees, Keeps, most_kept, used, without};
ghost use Rattle.ktm_pages.specs.Slots.{free_slots, is_page, last_slot, slot_for, slot_of};

use ktm_base::{Down, NoMemory};
use ktm_page::PageIo;
use lru::LruCache;
use std::alloc::Global;
use std::marker::Model;
use std::num::NonZeroUsize;

// The most pages that are kept.
const SLOTS: usize = 64;

/// The 64 pages of a row that were used last. All memory is taken when it is made. A page is found by a walk over the slots, from the
/// one that was used last.
#[derive(Drop)]
pub struct Cache {
    // the page that each slot has, if it has one; each slot stands in the map always, since only a key that is there is put with no memory
    slots: LruCache<usize, Option<u32>>,
    // the bytes of each slot
    bytes: Vec<[u8; 4096]>,
}

impl Model for Cache {
    ghost use Rattle.std.specs.Prelude.{◌≡◌};
    ghost use Rattle.ktm_pages.specs.Cache.{CacheState, most_kept};
    ghost use Rattle.ktm_pages.specs.Slots.{AreSlots, kept_in};

    ghost Value = { CacheState };

    ghost view = { λ c. record { kept = kept_in c.bytes.items c.slots.entries } };

    ghost invariant = { λ c. AreSlots c.bytes.items c.slots.entries };
}

// Is it this page.
fn is_page(page: u32, has: &Option<u32>) -> bool
    ensures { result ≡ is_page page has.now }
{
    match has {
        Some(other) => *other == page,
        None => false,
    }
}

// The slot that has a page.
fn slot_of(slots: &LruCache<usize, Option<u32>>, page: u32) -> Option<usize>
    ensures { result ≡ slot_of page slots.now.entries }
{
    for (slot, has) in slots.iter() {
        if is_page(page, has) {
            return Some(*slot);
        }
    }
    None
}

// The slot that was used longest ago.
fn last_slot(slots: &LruCache<usize, Option<u32>>) -> usize
    requires { 0 < length slots.now.entries }
    ensures { result ≡ last_slot slots.now.entries }
{
    let (slot, _) = slots.peek_lru().unwrap();
    *slot
}

// The slot for a page: the one that has it, or else the one that was used longest ago.
fn slot_for(slots: &LruCache<usize, Option<u32>>, page: u32) -> usize
    requires { 0 < length slots.now.entries }
    ensures { result ≡ slot_for page slots.now.entries }
{
    match slot_of(slots, page) {
        Some(slot) => slot,
        None => last_slot(slots),
    }
}

// The slots, none of which has a page.
fn free_slots(alloc: Global) -> Result<LruCache<usize, Option<u32>>, NoMemory>
    ensures { IfOk result (λ slots. slots.entries ≡ free_slots most_kept) }
{
    let mut slots = LruCache::new(alloc, NonZeroUsize::new(SLOTS).unwrap())?;
    for slot in 0..SLOTS {
        if let Err(_) = slots.put(slot, None) {
            drop(slots);
            return Err(NoMemory);
        }
    }
    Ok(slots)
}

impl Cache {
    /// An empty cache.
    pub fn new(alloc: Global) -> Result<Self, NoMemory>
        ensures { IfOk result (λ cache. cache.kept ≡ []) }
    {
        let bytes = vec![in alloc; [0u8; 4096]; SLOTS]?;
        let slots = free_slots(alloc)?;
        Ok(Cache { slots, bytes })
    }

    // Fills the buffer with the bytes of a page, where it is kept.
    fn find(&mut self, page: u32, buf: &mut [u8; 4096]) -> bool
        ensures found { IsTrue result → Contains self.old.kept (page, buf.new) }
        ensures used { IsTrue result → self.new.kept ≡ used page buf.new self.old.kept }
        ensures none { result ≡ false → Keeps self.old page → ⊥ }
        ensures same { result ≡ false → self.new ≡ self.old }
    {
        let Some(slot) = slot_of(&self.slots, page) else {
            return false;
        };
        *buf = self.bytes[slot];
        self.slots.promote(&slot);
        true
    }

    // Keeps the bytes of a page.
    fn keep(&mut self, page: u32, bytes: &[u8; 4096])
        ensures { self.new.kept ≡ used page bytes.now self.old.kept }
    {
        let slot = slot_for(&self.slots, page);
        self.bytes[slot] = *bytes;
        self.slots.put(slot, Some(page)).unwrap();
    }

    // Keeps a page no longer.
    fn forget(&mut self, page: u32)
        ensures { self.new.kept ≡ without page self.old.kept }
    {
        let Some(slot) = slot_of(&self.slots, page) else {
            return;
        };
        self.slots.put(slot, None).unwrap();
        self.slots.demote(&slot);
    }

    /// Fills the buffer with the bytes of a page of the row. A page that is kept is read without a device call. Where it answers Down the
    /// buffer may hold anything.
    pub fn read<P: PageIo>(
        &mut self,
        io: &mut P,
        page: u32,
        buf: &mut [u8; 4096],
    ) -> Result<(), Down>
        requires agrees { Agrees self.old (P.told io.old) }
        requires below { page < P.count io.old }
        ensures value { OnOk result (IfSome (P.told io.old) (λ r. buf.new ≡ page_of r.seen page)) }
        ensures same { P.told io.new ≡ P.told io.old }
        ensures agrees { Agrees self.new (P.told io.new) }
        ensures kept { Keeps self.old page → OnErr result ⊥ × (io.new ≡ io.old) }
        ensures keeps { OnOk result (Keeps self.new page) }
        ensures used { OnOk result (self.new.kept ≡ used page buf.new self.old.kept) }
        ensures err { OnErr result (self.new ≡ self.old) }
        ensures count { P.count io.new ≡ P.count io.old }
        ensures row { P.keeps io.old io.new }
        ensures calls { DeviceCalls 2 (P.status io.old) (P.status io.new) (is_err result) }
    {
        if self.find(page, buf) {
            return Ok(());
        }
        if let Err(Down) = io.read_page(page, buf) {
            return Err(Down);
        }
        self.keep(page, buf);
        Ok(())
    }

    /// Writes over a page of the row, and keeps it.
    pub fn write<P: PageIo>(
        &mut self,
        io: &mut P,
        page: u32,
        bytes: &[u8; 4096],
    ) -> Result<(), Down>
        requires agrees { Agrees self.old (P.told io.old) }
        requires below { page < P.count io.old }
        ensures ok { OnOk result (Goes (WrotePage page bytes.now) (P.told io.old) (P.told io.new)) }
        ensures err { OnErr result (Goes (LostPage page) (P.told io.old) (P.told io.new)) }
        ensures agrees { Agrees self.new (P.told io.new) }
        ensures keeps { OnOk result (Keeps self.new page) }
        ensures used { OnOk result (self.new.kept ≡ used page bytes.now self.old.kept) }
        ensures forgotten { OnErr result (self.new.kept ≡ without page self.old.kept) }
        ensures count { P.count io.new ≡ P.count io.old }
        ensures row { P.keeps io.old io.new }
        ensures calls { DeviceCalls 2 (P.status io.old) (P.status io.new) (is_err result) }
    {
        if let Err(Down) = io.write_page(page, bytes) {
            self.forget(page);
            return Err(Down);
        }
        self.keep(page, bytes);
        Ok(())
    }
}
