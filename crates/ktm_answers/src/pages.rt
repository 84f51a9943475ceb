// Pages on a disk whose power can be cut: what is read and written, and which of them are out.
ghost use Rattle.std.specs.Prelude.{◌≡◌, ◌<◌, ◌≤◌, All, IfOk, IfSome, OnOk, length};
ghost use Rattle.ktm_base.specs.Disk.{IsSafe};
ghost use Rattle.ktm_row.specs.Places.{end_of};
ghost use Rattle.ktm_pages.specs.Pages.{count_of, holders_of};

use crate::words::{digits, fill, numbers, owned, say};
use ktm_base::{Bytes, Disk, Down, NoMemory, PageList, PowerDisk, UNIT_BYTES};
use ktm_cut::CutDisk;
use ktm_extent::ExtentFault;
use ktm_mem::{Calls, MemBlock};
use ktm_page::{PageIo, PageSpace};
use ktm_pages::{Cache, Pages};
use ktm_row::{CachedRow, Row};
use std::alloc::Global;

/// Where the first page begins, behind one that is none of them.
pub const BEGIN: u64 = 4096;

/// How many pages the smallest image has.
pub const ALL_PAGES: u32 = 64;

// How many pages a row has that is tried alone.
const PAGES: u32 = 4;

/// A disk with so many pages, all of zeros.
pub fn disk_of(alloc: Global, pages: u32) -> Result<CutDisk<MemBlock>, NoMemory>
    requires { pages ≤ ALL_PAGES }
{
    let len = BEGIN as usize + 4096 * pages as usize;
    let zeros = Bytes::new(vec![in alloc; 0; len]?);
    let block = MemBlock::new(alloc, zeros, len, Calls::none(alloc))?;
    Ok(CutDisk::new(alloc, block)?)
}

/// Makes what was written stay, on a disk that has so many pages.
pub fn make_stay<D: Disk>(disk: &mut D, pages: u32) -> Result<(), Down>
    ensures fits { OnOk result (IfSome (D.told disk.new) (λ s. end_of BEGIN pages ≤ length s.seen)) }
    ensures safe { OnOk result (IfSome (D.told disk.new) IsSafe) }
    ensures pending { OnOk result ((D.status disk.new).pending ≡ 0) }
{
    if let Err(Down) = disk.sync() {
        return Err(Down);
    }
    let Ok(len) = disk.len() else {
        return Err(Down);
    };
    if len < BEGIN + pages as u64 * UNIT_BYTES {
        return Err(Down);
    }
    Ok(())
}

/// Makes what was written stay, and sets at which device call, counted from 0, the power then goes.
pub fn arm<D: PowerDisk>(
    alloc: Global,
    disk: &mut D,
    pages: u32,
    call: u32,
) -> Result<(), ExtentFault>
    ensures fits { OnOk result (IfSome (D.told disk.new) (λ s. end_of BEGIN pages ≤ length s.seen)) }
    ensures safe { OnOk result (IfSome (D.told disk.new) IsSafe) }
    ensures pending { OnOk result ((D.status disk.new).pending ≡ 0) }
{
    if let Err(Down) = make_stay(disk, pages) {
        return Err(ExtentFault::Down);
    }
    if let Err(NoMemory) = disk.plan_room(alloc) {
        return Err(ExtentFault::NoMemory);
    }
    disk.arm(call as u64);
    Ok(())
}

// The first and the last byte of a page.
fn read_page<P: PageIo>(alloc: Global, io: &mut P, page: u32) -> Result<String, ExtentFault>
    requires { page < P.count io.old }
    ensures { P.count io.new ≡ P.count io.old }
{
    let mut buf = [0xff; 4096];
    if let Err(Down) = io.read_page(page, &mut buf) {
        return Err(ExtentFault::Down);
    }
    Ok(digits(alloc, &[buf[0], buf[4095]])?)
}

// Writes a page of bytes that count from a first one on.
fn write_page<P: PageIo>(
    alloc: Global,
    io: &mut P,
    page: u32,
    first: u32,
) -> Result<String, ExtentFault>
    requires { page < P.count io.old }
    ensures { P.count io.new ≡ P.count io.old }
{
    let mut bytes = [0; 4096];
    fill(&mut bytes, first);
    if let Err(Down) = io.write_page(page, &bytes) {
        return Err(ExtentFault::Down);
    }
    Ok(owned(alloc, "written")?)
}

// Reads a page, `PAGE`, or writes one, `PAGE FIRST`.
fn step<P: PageIo>(alloc: Global, io: &mut P, step: &str) -> Result<String, ExtentFault>
    requires { P.count io.old ≡ PAGES }
    ensures { P.count io.new ≡ PAGES }
{
    let [page, first, ..] = numbers(step);
    if page >= PAGES {
        return Ok(owned(alloc, "no page")?);
    }
    if step.contains(' ') {
        return write_page(alloc, io, page, first);
    }
    read_page(alloc, io, page)
}

/// The answer of a step, which may be that the power went.
pub fn told(alloc: Global, answer: Result<String, ExtentFault>) -> Result<String, NoMemory> {
    match answer {
        Ok(answer) => Ok(answer),
        Err(ExtentFault::Down) => owned(alloc, "down"),
        Err(ExtentFault::NoMemory) => Err(NoMemory),
    }
}

// What steps over a row answer.
fn steps<P: PageIo>(
    alloc: Global,
    io: &mut P,
    steps: &str,
    text: &mut String,
) -> Result<(), NoMemory>
    requires { P.count io.old ≡ PAGES }
    ensures { P.count io.new ≡ PAGES }
{
    for next in steps.split(", ") {
        let answer = told(alloc, step(alloc, io, next))?;
        say(text, &answer)?;
    }
    Ok(())
}

/// What steps over a row of four pages answer, and whether anything waits behind a sync.
pub fn row_of(alloc: Global, asked: &str) -> Result<String, ExtentFault> {
    let mut disk = disk_of(alloc, PAGES)?;
    make_stay(&mut disk, PAGES)?;
    let mut text = String::new(alloc);
    let mut row = Row::new(&mut disk, BEGIN, PAGES);
    let answered = steps(alloc, &mut row, asked, &mut text);
    let synced = row.sync();
    row.end();
    answered?;
    synced?;
    let left = if disk.block().waits() {
        "waits"
    } else {
        "stays"
    };
    say(&mut text, left)?;
    Ok(text)
}

/// What they answer over the same row through a cache, where the power goes at the device call whose number stands in front of them.
pub fn cached_of(alloc: Global, asked: &str) -> Result<String, ExtentFault> {
    let (call, asked) = asked.split_once(": ").unwrap_or(("", asked));
    let [call, ..] = numbers(call);
    let mut disk = disk_of(alloc, PAGES)?;
    let mut cache = Cache::new(alloc)?;
    arm(alloc, &mut disk, PAGES, call)?;
    let mut text = String::new(alloc);
    let mut row = CachedRow::new(&mut disk, BEGIN, PAGES, &mut cache);
    let answered = steps(alloc, &mut row, asked, &mut text);
    row.end();
    answered?;
    Ok(text)
}

// All pages but these.
fn others(alloc: Global, free: &[u32]) -> Result<PageList, NoMemory>
    ensures below { IfOk result (λ pages. All (λ page. page < ALL_PAGES) pages) }
    ensures few { IfOk result (λ pages. length pages ≤ ALL_PAGES) }
{
    let mut pages = Vec::with_capacity(alloc, ALL_PAGES as usize)?;
    for page in 0..ALL_PAGES {
        if !free.contains(&page) {
            pages.push(page)?;
        }
    }
    Ok(PageList::new(pages))
}

// Takes all pages that are free, says which, and answers the last one.
fn take_all(alloc: Global, pages: &mut Pages, text: &mut String) -> Result<Option<u32>, NoMemory>
    ensures { IfOk result (λ last. IfSome last (λ page. (page < count_of pages.new) × (0 < holders_of pages.new page))) }
{
    let mut last = None;
    for _ in 0..ALL_PAGES {
        let Some(page) = pages.take() else {
            break;
        };
        say(text, &format!(in alloc; "{page}")?)?;
        last = Some(page);
    }
    Ok(last)
}

/// How many pages are free.
pub fn free_of(alloc: Global, pages: &Pages) -> Result<String, NoMemory> {
    Ok(format!(in alloc; "{} free", pages.free())?)
}

/// Which pages are taken where four are free, with how many are free before and behind, and the same once more after the last one
/// was given.
pub fn taken_of(alloc: Global, free: &str) -> Result<String, NoMemory> {
    let mut pages = Pages::new(alloc, 0, &others(alloc, &numbers(free))?)?;
    let mut text = String::new(alloc);
    say(&mut text, &free_of(alloc, &pages)?)?;
    let last = take_all(alloc, &mut pages, &mut text)?;
    say(&mut text, &free_of(alloc, &pages)?)?;
    if let Some(last) = last {
        pages.give(last);
        say(&mut text, &free_of(alloc, &pages)?)?;
        take_all(alloc, &mut pages, &mut text)?;
        say(&mut text, &free_of(alloc, &pages)?)?;
    }
    Ok(text)
}
