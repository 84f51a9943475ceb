// Contents that are read, from memory and from the disk.
ghost use Rattle.std.specs.Prelude.{◌≡◌, ℕ, ◌+◌, ◌-◌, ◌/◌, ◌<◌, ◌≤◌, ◌++◌, [], false, min, List, OnOk, IfSome, drop, is_err, length, take, vec_capacity, vec_len};
ghost use Rattle.ktm_base.specs.Disk.{OnlyReads};
ghost use Rattle.ktm_core.specs.Reading.{Agrees, IfNoMemory, IsLonger, OnlyLets, bytes_read, many_read, read_went_down, units_read};
ghost use Rattle.ktm_journal.specs.Image.{IsHeaded, page_count};
ghost use Rattle.ktm_page.specs.Row.{page_of};
ghost use Rattle.ktm_store.specs.Pool.{Shows, is_kept};
ghost use Rattle.ktm_store.specs.Store.{AreBelow, bytes_at};

use ktm_base::{Disk, Down, UNIT_BYTES};
use ktm_content::PlacedRef;
use ktm_journal::Journal;
use ktm_store::{Store, law_of_rows};
use std::alloc::{AllocError, Global};

/// Why contents were not read.
#[derive(Clone, Copy, Debug, PartialEq, Eq)]
pub enum ReadFault {
    /// The disk has no power.
    Down,
    /// Out of memory. No device call was made.
    NoMemory,
}

// Reads a page that is not in memory from the disk, and keeps it as long as there is room.
fn fetch<D: Disk>(
    alloc: Global,
    disk: &mut D,
    journal: &Journal,
    store: &mut Store,
    page: u32,
    bytes: &mut [u8],
) -> Result<(), Down>
    requires headed { IfSome (D.told disk.old) (λ s. IsHeaded journal.now.units journal.now.image journal.now.selector s.seen) }
    requires count { length store.old.marks.held ≡ page_count journal.now.units }
    requires wanted { store.old.wanted ≡ [] }
    requires below { page < length store.old.marks.held }
    requires out { is_kept store.old.seen page ≡ false }
    requires whole { length bytes.old ≡ 4096 }
    ensures rows { (row : List ℕ) → Shows store.old row → Agrees journal.now.units store.old row (D.told disk.old)
        → Shows store.new row × OnOk result (bytes.new ≡ page_of row page) }
    ensures whole { length bytes.new ≡ 4096 }
    ensures lets { OnlyLets store.old store.new }
    ensures reads { OnlyReads 1 (D.told disk.old) (D.told disk.new) (D.status disk.old) (D.status disk.new) (is_err result) }
{
    law_of_rows(store);
    if let Err(Down) = journal.read_page(disk, page, bytes) {
        return Err(Down);
    }
    let _ = store.keep(alloc, page, bytes);
    law_of_rows(store);
    Ok(())
}

// Puts a part of a page behind the bytes that are there, for which there is room.
fn read_part<D: Disk>(
    alloc: Global,
    disk: &mut D,
    journal: &Journal,
    store: &mut Store,
    page: u32,
    from: usize,
    end: usize,
    onto: &mut Vec<u8>,
) -> Result<(), Down>
    requires headed { IfSome (D.told disk.old) (λ s. IsHeaded journal.now.units journal.now.image journal.now.selector s.seen) }
    requires count { length store.old.marks.held ≡ page_count journal.now.units }
    requires wanted { store.old.wanted ≡ [] }
    requires below { page < length store.old.marks.held }
    requires order { from ≤ end }
    requires within { end ≤ 4096 }
    requires room { vec_len onto.old + (end - from) ≤ vec_capacity onto.old }
    ensures rows { (row : List ℕ) → Shows store.old row → Agrees journal.now.units store.old row (D.told disk.old)
        → Shows store.new row × OnOk result (onto.new.items ≡ onto.old.items ++ take (end - from) (drop from (page_of row page))) }
    ensures long { OnOk result (IsLonger (end - from) onto.old.items onto.new.items) }
    ensures capacity { vec_capacity onto.old ≤ vec_capacity onto.new }
    ensures lets { OnlyLets store.old store.new }
    ensures reads { OnlyReads 1 (D.told disk.old) (D.told disk.new) (D.status disk.old) (D.status disk.new) (is_err result) }
{
    if store.is_kept(page) {
        onto.extend_from_slice(&store.page(page)[from..end])
            .unwrap();
        return Ok(());
    }
    let mut bytes = [0u8; UNIT_BYTES as usize];
    if let Err(Down) = fetch(alloc, disk, journal, store, page, &mut bytes) {
        return Err(Down);
    }
    onto.extend_from_slice(&bytes[from..end]).unwrap();
    Ok(())
}

// Puts the bytes of contents from an offset up to an end behind those that are there, for which there is room.
fn read_parts<D: Disk>(
    alloc: Global,
    disk: &mut D,
    journal: &Journal,
    store: &mut Store,
    content: &PlacedRef<'_>,
    from: u64,
    end: u64,
    onto: &mut Vec<u8>,
) -> Result<(), Down>
    requires headed { IfSome (D.told disk.old) (λ s. IsHeaded journal.now.units journal.now.image journal.now.selector s.seen) }
    requires count { length store.old.marks.held ≡ page_count journal.now.units }
    requires wanted { store.old.wanted ≡ [] }
    requires below { AreBelow (length store.old.marks.held) content.now }
    requires order { from ≤ end }
    requires within { end ≤ length content.now }
    requires room { vec_len onto.old + (end - from) ≤ vec_capacity onto.old }
    ensures rows { (row : List ℕ) → Shows store.old row → Agrees journal.now.units store.old row (D.told disk.old)
        → Shows store.new row × OnOk result (onto.new.items ≡ onto.old.items ++ take (end - from) (drop from (bytes_at row content.now))) }
    ensures long { OnOk result (IsLonger (end - from) onto.old.items onto.new.items) }
    ensures lets { OnlyLets store.old store.new }
    ensures reads { OnlyReads (min (end - from) ((end + 4095) / 4096 - from / 4096)) (D.told disk.old) (D.told disk.new) (D.status disk.old) (D.status disk.new) (is_err result) }
{
    let mut at = from;
    while at < end {
        let skip = (at % UNIT_BYTES) as usize;
        let many = (end - at).min(UNIT_BYTES - at % UNIT_BYTES);
        let page = content.pages()[(at / UNIT_BYTES) as usize];
        let stop = skip + many as usize;
        if let Err(Down) = read_part(alloc, disk, journal, store, page, skip, stop, onto) {
            return Err(Down);
        }
        at += many;
    }
    Ok(())
}

/// Puts bytes of contents from the offset on, at most so many, behind those that are there. A page that is in memory is read from there, and
/// any other one from the disk, by one device call each; it is kept then, as long as there is room.
pub fn read_content<D: Disk>(
    alloc: Global,
    disk: &mut D,
    journal: &Journal,
    store: &mut Store,
    content: PlacedRef<'_>,
    offset: u64,
    most: u64,
    onto: &mut Vec<u8>,
) -> Result<(), ReadFault>
    requires headed { IfSome (D.told disk.old) (λ s. IsHeaded journal.now.units journal.now.image journal.now.selector s.seen) }
    requires count { length store.old.marks.held ≡ page_count journal.now.units }
    requires wanted { store.old.wanted ≡ [] }
    requires below { AreBelow (length store.old.marks.held) content }
    ensures rows { (row : List ℕ) → Shows store.old row → Agrees journal.now.units store.old row (D.told disk.old)
        → Shows store.new row × OnOk result (onto.new.items ≡ onto.old.items ++ bytes_read row content.entry offset most) }
    ensures long { OnOk result (IsLonger (many_read (length content.entry) offset most) onto.old.items onto.new.items) }
    ensures lets { OnlyLets store.old store.new }
    ensures reads { OnlyReads (units_read (length content.entry) offset most) (D.told disk.old) (D.told disk.new) (D.status disk.old) (D.status disk.new) (read_went_down result) }
    ensures no_memory { IfNoMemory result ((D.status disk.new ≡ D.status disk.old) × (store.new ≡ store.old)) }
{
    let from = offset.min(content.len());
    let many = most.min(content.len() - from);
    if let Err(AllocError) = onto.reserve(many as usize) {
        return Err(ReadFault::NoMemory);
    }
    let end = from + many;
    if let Err(Down) = read_parts(alloc, disk, journal, store, &content, from, end, onto) {
        return Err(ReadFault::Down);
    }
    Ok(())
}
