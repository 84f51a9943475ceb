// Contents of a file, and a copy of them, in pages on a disk whose power can be cut.
ghost use Rattle.std.specs.Prelude.{◌≡◌, ℕ, ◌≤◌, [], IfOk, IfSome, length};
ghost use Rattle.std.proofs.Props.{props};
ghost use Rattle.ktm_base.specs.Disk.{IsSafe};
ghost use Rattle.ktm_cut.specs.Cut.{status_of, told_by};
ghost use Rattle.ktm_row.specs.Places.{end_of};
ghost use Rattle.ktm_pages.specs.Pages.{count_of, holders_of};
ghost use Rattle.ktm_answers.specs.Shelf.{HaveAll};
ghost use Rattle.ktm_answers.specs.declared.pages.TheConstants.{ALL_PAGES};

use crate::pages::{ALL_PAGES, BEGIN, arm, disk_of, free_of, make_stay, told};
use crate::words::{counted, digits, numbers, say};
use ktm_base::{Disk, Down, NoMemory, PageList, PowerDisk, UNIT_BYTES};
use ktm_cut::CutDisk;
use ktm_extent::{Extent, ExtentFault};
use ktm_mem::MemBlock;
use ktm_page::PageSpace;
use ktm_pages::Pages;
use ktm_row::Row;
use std::alloc::Global;
use std::mem;

/// Contents and a copy of them, which have all pages that are out.
#[derive(Drop)]
struct Shelf {
    disk: CutDisk<MemBlock>,
    pages: Pages,
    file: Extent,
    copy: Extent,
    ghost all: { count_of pages ≡ ALL_PAGES },
    ghost held: { HaveAll pages file copy } by { Prim.hlevel props },
}

// No contents.
fn empty(alloc: Global) -> Extent
    ensures { result ≡ record { size = 0; pages = [] } }
{
    Extent::new(0, PageList::new(Vec::new(alloc)))
}

// All pages, none of which is out.
fn all_free(alloc: Global) -> Result<Pages, NoMemory>
    ensures all { IfOk result (λ pages. count_of pages ≡ ALL_PAGES) }
    ensures free { IfOk result (λ pages. (page : ℕ) → holders_of pages page ≡ 0) }
{
    let none = PageList::new(Vec::new(alloc));
    Pages::new(alloc, 0, &none)
}

impl Shelf {
    fn new(alloc: Global) -> Result<Shelf, NoMemory> {
        Ok(Shelf {
            disk: disk_of(alloc, ALL_PAGES)?,
            pages: all_free(alloc)?,
            file: empty(alloc),
            copy: empty(alloc),
        })
    }

    // Writes bytes, on a disk on which nothing waits. Out of pages, which no table is, it fails as where it is out of memory.
    fn put(&mut self, alloc: Global, at: u32, bytes: &[u8]) -> Result<(), ExtentFault>
        requires fits { IfSome (told_by self.old.disk) (λ s. end_of BEGIN ALL_PAGES ≤ length s.seen) }
        requires safe { IfSome (told_by self.old.disk) IsSafe }
        requires pending { (status_of self.old.disk).pending ≡ 0 }
    {
        let end = (at as u64).saturating_add(bytes.len() as u64);
        if end / UNIT_BYTES >= self.pages.free() as u64 {
            return Err(ExtentFault::NoMemory);
        }
        let mut row = Row::new(&mut self.disk, BEGIN, ALL_PAGES);
        let written = self
            .file
            .write(alloc, &mut row, &mut self.pages, at as u64, bytes);
        let synced = row.sync();
        row.end();
        written?;
        synced?;
        Ok(())
    }

    fn write(&mut self, alloc: Global, at: u32, bytes: &[u8]) -> Result<(), ExtentFault> {
        make_stay(&mut self.disk, ALL_PAGES)?;
        self.put(alloc, at, bytes)
    }

    // Writes where the power goes at the device call with this number, or else behind the last one, and comes back.
    fn fail(&mut self, alloc: Global, call: u32, at: u32, bytes: &[u8]) -> Result<(), ExtentFault> {
        arm(alloc, &mut self.disk, ALL_PAGES, call)?;
        let written = self.put(alloc, at, bytes);
        self.disk.plan_room(alloc)?;
        self.disk.off();
        self.disk.power(call as u64)?;
        written
    }

    fn grow(&mut self, alloc: Global, len: u32) -> Result<(), ExtentFault> {
        make_stay(&mut self.disk, ALL_PAGES)?;
        if (len as u64) < self.file.size() || len as u64 / UNIT_BYTES >= self.pages.free() as u64 {
            return Err(ExtentFault::NoMemory);
        }
        let mut row = Row::new(&mut self.disk, BEGIN, ALL_PAGES);
        let grown = self.file.grow(alloc, &mut row, &mut self.pages, len as u64);
        row.end();
        grown
    }

    fn cut(&mut self, len: u32) {
        let len = self.file.size().min(len as u64);
        self.file.cut(&mut self.pages, len);
    }

    // Copies the contents, where there is no copy yet.
    fn copy(&mut self, alloc: Global) -> Result<(), NoMemory> {
        if !self.copy.pages().is_empty() || self.file.pages().len() > ALL_PAGES as usize {
            return Err(NoMemory);
        }
        self.copy = self.file.copy(alloc, &mut self.pages)?;
        Ok(())
    }

    // The digits of as many bytes from an offset on as there are.
    fn read(&mut self, alloc: Global, at: u32, len: u32) -> Result<String, ExtentFault> {
        let Ok(mut buf) = vec![in alloc; 0xffu8; len as usize] else {
            return Err(ExtentFault::NoMemory);
        };
        make_stay(&mut self.disk, ALL_PAGES)?;
        let mut row = Row::new(&mut self.disk, BEGIN, ALL_PAGES);
        let read = self.file.read(&mut row, at as u64, &mut buf);
        row.end();
        Ok(digits(alloc, &buf[..read?])?)
    }

    // The digits that are read, or how many pages are free behind the step.
    fn step(&mut self, alloc: Global, step: &str) -> Result<String, ExtentFault> {
        let (word, numerals) = step.split_once(' ').unwrap_or((step, ""));
        let [first, second, third, fourth] = numbers(numerals);
        match word {
            "write" => self.write(alloc, first, &counted(alloc, second, third)?)?,
            "fail" => self.fail(alloc, first, second, &counted(alloc, third, fourth)?)?,
            "grow" => self.grow(alloc, first)?,
            "cut" => self.cut(first),
            "copy" => self.copy(alloc)?,
            "swap" => mem::swap(&mut self.file, &mut self.copy),
            _ => return self.read(alloc, first, second),
        }
        Ok(free_of(alloc, &self.pages)?)
    }
}

/// What steps over contents of a file and their copy answer.
pub fn contents_of(alloc: Global, steps: &str) -> Result<String, NoMemory> {
    let mut shelf = Shelf::new(alloc)?;
    let mut text = String::new(alloc);
    for step in steps.split(", ") {
        let answer = told(alloc, shelf.step(alloc, step))?;
        say(&mut text, &answer)?;
    }
    Ok(text)
}
