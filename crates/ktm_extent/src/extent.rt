// Contents as a list of pages.
ghost use Rattle.std.specs.Prelude.{◌≡◌, ℕ, ◌+◌, ◌-◌, ◌*◌, ◌/◌, ◌<◌, ◌==◌, ◌≤◌, ◌≢◌, ◌^◌, ◌++◌, if◌then◌else◌, min, max, List, length, take, drop, slice_range, AllPairs, IfErr, IfOk, IfSome, OnErr, OnOk, is_err, slice_index};
ghost use Rattle.ktm_base.specs.Disk.{DeviceCalls};
ghost use Rattle.ktm_page.specs.Space.{free_below};
ghost use Rattle.ktm_world.specs.Tree.{cut_to, put_over};
ghost use Rattle.ktm_extent.specs.Extent.{AreBelow, AreOut, Moves, contents, overwritten, touched, uses};
ghost use Rattle.ktm_extent.specs.Calls.{IsUnchanged, IsWritten, NotWritten};
ghost use Rattle.ktm_extent.specs.Units.{IsFilled, IsUnit, Stays, first_unit, keeps, read_calls};

use crate::ExtentFault;
use crate::holders::{give_all, share_all};
use crate::rewrite::{longer_copy, take_units};
use crate::unit::{clear_behind, read_part};
use ktm_base::{Down, NoMemory, PageList, UNIT_BYTES};
use ktm_page::{PageIo, PageSpace};
use std::alloc::Global;
use std::marker::Model;

/// Contents of a file: its size in bytes, and the page of each unit of 4,096 bytes. What a page holds behind the size is not read.
#[derive(Drop)]
pub struct Extent {
    size: u64,
    pages: Vec<u32>,
}

impl Model for Extent {
    ghost use Rattle.ktm_extent.specs.Extent.{ExtentState, IsExtent};

    ghost Value = { ExtentState };

    ghost view = { λ e. record { size = e.size; pages = e.pages.items } };

    ghost invariant = { λ e. IsExtent (record { size = e.size; pages = e.pages.items }) };
}

impl Extent {
    /// Contents of so many bytes in these pages, one for each unit, all different.
    pub fn new(size: u64, pages: PageList) -> Self
        requires units { length pages ≡ (size + 4095) / 4096 }
        requires different { AllPairs (λ (a b : ℕ). a ≢ b) pages }
        ensures size { result.size ≡ size }
        ensures pages { result.pages ≡ pages }
    {
        Extent {
            size,
            pages: pages.into_vec(),
        }
    }

    /// The size in bytes.
    pub fn size(&self) -> u64
        ensures { result ≡ self.now.size }
    {
        self.size
    }

    /// The page of each unit.
    pub fn pages(&self) -> &[u32]
        ensures { result.now ≡ self.now.pages }
    {
        &self.pages
    }

    // The unit where a write at an offset begins.
    pub(crate) fn first_unit(&self, at: u64) -> u64
        ensures { result ≡ first_unit self.now.size at }
    {
        self.size.min(at) / UNIT_BYTES
    }

    // Does any byte stay in the unit that begins here, where bytes are put over from an offset to an end.
    fn keeps(&self, at: u64, end: u64, start: u64) -> bool
        requires { start < end }
        ensures { result ≡ keeps self.now.size at end start }
    {
        start < self.size.min(at) || end < self.size && end - start < UNIT_BYTES
    }

    // Fills the buffer with a unit, and with zeros behind the size.
    fn read_unit<P: PageIo>(&self, io: &mut P, unit: u64, buf: &mut [u8; 4096]) -> Result<(), Down>
        requires row { AreBelow (P.count io.old) self.now }
        requires there { unit * 4096 < self.now.size }
        ensures value { OnOk result (IfSome (P.told io.old) (λ r. IsUnit (contents r.seen self.now) unit buf.new)) }
        ensures same { P.told io.new ≡ P.told io.old }
        ensures count { P.count io.new ≡ P.count io.old }
        ensures keeps { P.keeps io.old io.new }
        ensures calls { DeviceCalls 2 (P.status io.old) (P.status io.new) (is_err result) }
    {
        if let Err(Down) = io.read_page(self.pages[unit as usize], buf) {
            return Err(Down);
        }
        clear_behind(buf, self.size - unit * UNIT_BYTES);
        Ok(())
    }

    // Fills the buffer of a unit, which has zeros, with what stays of it where bytes are put over from an offset to an end.
    pub(crate) fn read_kept<P: PageIo>(
        &self,
        io: &mut P,
        unit: u64,
        at: u64,
        end: u64,
        buf: &mut [u8; 4096],
    ) -> Result<(), Down>
        requires row { AreBelow (P.count io.old) self.now }
        requires there { unit * 4096 < end }
        requires zeros { (i : ℕ) → i < 4096 → slice_index buf.old i ≡ 0 }
        ensures value { OnOk result (IfSome (P.told io.old) (λ r. Stays (contents r.seen self.now) at end unit buf.new)) }
        ensures same { P.told io.new ≡ P.told io.old }
        ensures count { P.count io.new ≡ P.count io.old }
        ensures keeps { P.keeps io.old io.new }
        ensures calls { DeviceCalls (read_calls self.now.size at end (unit * 4096)) (P.status io.old) (P.status io.new) (is_err result) }
    {
        if !self.keeps(at, end, unit * UNIT_BYTES) {
            return Ok(());
        }
        if let Err(Down) = self.read_unit(io, unit, buf) {
            return Err(Down);
        }
        Ok(())
    }

    // Fills the buffer, which is for the bytes from the offset on, with those of a unit.
    fn fill_unit<P: PageIo>(
        &self,
        io: &mut P,
        unit: u64,
        at: u64,
        buf: &mut [u8],
    ) -> Result<(), Down>
        requires row { AreBelow (P.count io.old) self.now }
        requires within { at + length buf.old ≤ self.now.size }
        requires begins { unit * 4096 < at + length buf.old }
        requires ends { at < unit * 4096 + 4096 }
        requires small { at + length buf.old < 2 ^ 64 }
        ensures filled { OnOk result (IfSome (P.told io.old) (λ r. IsFilled (contents r.seen self.now) at buf.old (unit * 4096) → IsFilled (contents r.seen self.now) at buf.new ((unit + 1) * 4096))) }
        ensures same { P.told io.new ≡ P.told io.old }
        ensures count { P.count io.new ≡ P.count io.old }
        ensures keeps { P.keeps io.old io.new }
        ensures calls { DeviceCalls 2 (P.status io.old) (P.status io.new) (is_err result) }
    {
        let start = unit * UNIT_BYTES;
        let from = start.saturating_sub(at) as usize;
        let skip = at.saturating_sub(start) as usize;
        let len = (buf.len() - from).min(4096 - skip);
        let page = self.pages[unit as usize];
        if let Err(Down) = read_part(io, page, skip, &mut buf[from..from + len]) {
            return Err(Down);
        }
        Ok(())
    }

    // Fills the buffer with the bytes from the offset on.
    fn fill<P: PageIo>(&self, io: &mut P, at: u64, buf: &mut [u8]) -> Result<(), Down>
        requires row { AreBelow (P.count io.old) self.now }
        requires some { 0 < length buf.old }
        requires within { at + length buf.old ≤ self.now.size }
        requires ends { at + length buf.old < 2 ^ 64 }
        ensures filled { OnOk result (IfSome (P.told io.old) (λ r. IsFilled (contents r.seen self.now) at buf.new (at + length buf.old))) }
        ensures same { P.told io.new ≡ P.told io.old }
        ensures count { P.count io.new ≡ P.count io.old }
        ensures keeps { P.keeps io.old io.new }
        ensures calls { DeviceCalls (2 * touched self.now.size at (length buf.old)) (P.status io.old) (P.status io.new) (is_err result) }
    {
        let last = (at + buf.len() as u64 - 1) / UNIT_BYTES;
        for unit in at / UNIT_BYTES..last + 1 {
            if let Err(Down) = self.fill_unit(io, unit, at, buf) {
                return Err(Down);
            }
        }
        Ok(())
    }

    /// Reads from the offset on as many bytes as the buffer has, or as there are; it answers how many. What the buffer has behind them stays.
    pub fn read<P: PageIo>(&self, io: &mut P, at: u64, buf: &mut [u8]) -> Result<usize, Down>
        requires row { AreBelow (P.count io.old) self.now }
        ensures value { IfOk result (λ n. n ≡ min (length buf.old) (self.now.size - at)) }
        ensures bytes { IfOk result (λ n. IfSome (P.told io.old) (λ r. buf.new ≡ slice_range (contents r.seen self.now) at (at + n) ++ drop n buf.old)) }
        ensures same { P.told io.new ≡ P.told io.old }
        ensures count { P.count io.new ≡ P.count io.old }
        ensures keeps { P.keeps io.old io.new }
        ensures calls { DeviceCalls (2 * touched self.now.size at (min (length buf.old) (self.now.size - at))) (P.status io.old) (P.status io.new) (is_err result) }
    {
        let len = self.size.saturating_sub(at).min(buf.len() as u64) as usize;
        if len == 0 {
            return Ok(0);
        }
        if let Err(Down) = self.fill(io, at, &mut buf[..len]) {
            return Err(Down);
        }
        Ok(len)
    }

    // Puts bytes over what is there, some of them behind the first unit's begin; a gap before them is filled with zeros.
    fn rewrite<P: PageIo, G: PageSpace>(
        &mut self,
        alloc: Global,
        io: &mut P,
        pages: &mut G,
        at: u64,
        bytes: &[u8],
    ) -> Result<(), ExtentFault>
        requires out { AreOut (G.holders pages.old) self.old }
        requires below { AreBelow (G.count pages.old) self.old }
        requires row { G.count pages.old ≤ P.count io.old }
        requires some { min self.old.size at < at + length bytes.now }
        requires free { (at + length bytes.now - 1) / 4096 + 1 - first_unit self.old.size at ≤ free_below (G.holders pages.old) (G.count pages.old) }
        requires end { at + length bytes.now < 2 ^ 64 }
        ensures ok { OnOk result (IsWritten ((at + length bytes.now - 1) / 4096 + 1 - first_unit self.old.size at) (G.count pages.old) (max self.old.size (at + length bytes.now)) (λ old. put_over old at bytes.now) self.old self.new (G.holders pages.old) (G.holders pages.new) (P.told io.old) (P.told io.new) (P.status io.old) (P.status io.new)) }
        ensures err { OnErr result (IsUnchanged self.old self.new (G.holders pages.old) (G.holders pages.new)) }
        ensures fault { IfErr result (λ fault. NotWritten fault ((at + length bytes.now - 1) / 4096 + 1 - first_unit self.old.size at) (G.count pages.old) (G.holders pages.old) (P.told io.old) (P.told io.new) (P.status io.old) (P.status io.new)) }
        ensures row { P.count io.new ≡ P.count io.old }
        ensures keeps { P.keeps io.old io.new }
        ensures count { G.count pages.new ≡ G.count pages.old }
    {
        let end = at + bytes.len() as u64;
        let first = self.first_unit(at) as usize;
        let behind = ((end - 1) / UNIT_BYTES + 1) as usize;
        let old = self.pages.len();
        let Ok(mut list) = longer_copy(alloc, &self.pages, old.max(behind)) else {
            return Err(ExtentFault::NoMemory);
        };
        if let Err(Down) = take_units(self, io, pages, at, bytes, &mut list[first..behind]) {
            drop(list);
            return Err(ExtentFault::Down);
        }
        give_all(pages, &self.pages[first..behind.min(old)]);
        self.pages = list;
        self.size = self.size.max(end);
        Ok(())
    }

    /// Puts bytes over what is there; a gap before them is filled with zeros. Each unit that it touches gets a new page, and the old one is given.
    /// After a fault the contents are as they were.
    pub fn write<P: PageIo, G: PageSpace>(
        &mut self,
        alloc: Global,
        io: &mut P,
        pages: &mut G,
        at: u64,
        bytes: &[u8],
    ) -> Result<(), ExtentFault>
        requires out { AreOut (G.holders pages.old) self.old }
        requires below { AreBelow (G.count pages.old) self.old }
        requires row { G.count pages.old ≤ P.count io.old }
        requires free { touched self.old.size at (length bytes.now) ≤ free_below (G.holders pages.old) (G.count pages.old) }
        requires end { at + length bytes.now < 2 ^ 64 }
        ensures ok { OnOk result (IsWritten (touched self.old.size at (length bytes.now)) (G.count pages.old) (max self.old.size (if length bytes.now == 0 then 0 else at + length bytes.now)) (λ old. overwritten old at bytes.now) self.old self.new (G.holders pages.old) (G.holders pages.new) (P.told io.old) (P.told io.new) (P.status io.old) (P.status io.new)) }
        ensures err { OnErr result (IsUnchanged self.old self.new (G.holders pages.old) (G.holders pages.new)) }
        ensures fault { IfErr result (λ fault. NotWritten fault (touched self.old.size at (length bytes.now)) (G.count pages.old) (G.holders pages.old) (P.told io.old) (P.told io.new) (P.status io.old) (P.status io.new)) }
        ensures row { P.count io.new ≡ P.count io.old }
        ensures keeps { P.keeps io.old io.new }
        ensures count { G.count pages.new ≡ G.count pages.old }
    {
        if bytes.is_empty() {
            return Ok(());
        }
        self.rewrite(alloc, io, pages, at, bytes)
    }

    /// Makes it longer, with zeros.
    pub fn grow<P: PageIo, G: PageSpace>(
        &mut self,
        alloc: Global,
        io: &mut P,
        pages: &mut G,
        len: u64,
    ) -> Result<(), ExtentFault>
        requires longer { self.old.size ≤ len }
        requires out { AreOut (G.holders pages.old) self.old }
        requires below { AreBelow (G.count pages.old) self.old }
        requires row { G.count pages.old ≤ P.count io.old }
        requires free { touched self.old.size self.old.size (len - self.old.size) ≤ free_below (G.holders pages.old) (G.count pages.old) }
        ensures ok { OnOk result (IsWritten (touched self.old.size self.old.size (len - self.old.size)) (G.count pages.old) len (λ old. cut_to old len) self.old self.new (G.holders pages.old) (G.holders pages.new) (P.told io.old) (P.told io.new) (P.status io.old) (P.status io.new)) }
        ensures err { OnErr result (IsUnchanged self.old self.new (G.holders pages.old) (G.holders pages.new)) }
        ensures fault { IfErr result (λ fault. NotWritten fault (touched self.old.size self.old.size (len - self.old.size)) (G.count pages.old) (G.holders pages.old) (P.told io.old) (P.told io.new) (P.status io.old) (P.status io.new)) }
        ensures row { P.count io.new ≡ P.count io.old }
        ensures keeps { P.keeps io.old io.new }
        ensures count { G.count pages.new ≡ G.count pages.old }
    {
        if len == self.size {
            return Ok(());
        }
        self.rewrite(alloc, io, pages, len, &[])
    }

    /// Makes it shorter: the pages behind the new size are given. Nothing is written.
    pub fn cut<G: PageSpace>(&mut self, pages: &mut G, len: u64)
        requires shorter { len ≤ self.old.size }
        requires out { AreOut (G.holders pages.old) self.old }
        requires below { AreBelow (G.count pages.old) self.old }
        ensures size { self.new.size ≡ len }
        ensures bytes { (seen : List ℕ) → G.count pages.old * 4096 ≤ length seen → contents seen self.new ≡ take len (contents seen self.old) }
        ensures pages { self.new.pages ≡ take ((len + 4095) / 4096) self.old.pages }
        ensures below { AreBelow (G.count pages.new) self.new }
        ensures out { AreOut (G.holders pages.new) self.new }
        ensures moves { Moves self.old self.new (G.holders pages.old) (G.holders pages.new) }
        ensures count { G.count pages.new ≡ G.count pages.old }
    {
        let units = len.div_ceil(UNIT_BYTES) as usize;
        give_all(pages, &self.pages[units..]);
        self.pages.truncate(units);
        self.size = len;
    }

    /// A copy of the contents in the same pages, which have a holder more each. Out of memory nothing changes.
    pub fn copy<G: PageSpace>(&self, alloc: Global, pages: &mut G) -> Result<Self, NoMemory>
        requires out { AreOut (G.holders pages.old) self.now }
        requires below { AreBelow (G.count pages.old) self.now }
        requires room { (page : ℕ) → G.holders pages.old page + uses self.now page < 2 ^ 32 }
        ensures copy { IfOk result (λ copy. copy ≡ self.now) }
        ensures shared { OnOk result ((page : ℕ) → G.holders pages.new page ≡ G.holders pages.old page + uses self.now page) }
        ensures err { OnErr result (G.holders pages.new ≡ G.holders pages.old) }
        ensures count { G.count pages.new ≡ G.count pages.old }
    {
        let list = Vec::from_slice(alloc, &self.pages)?;
        share_all(pages, &list);
        Ok(Extent {
            size: self.size,
            pages: list,
        })
    }
}
