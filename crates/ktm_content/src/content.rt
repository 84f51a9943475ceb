// Contents on pages.
ghost use Rattle.std.specs.Prelude.{◌≡◌, ◌↔◌, ◌+◌, ◌/◌, ◌≤◌, [], length, vec_capacity, IsOk, IsTrue, OnOk};
ghost use Rattle.ktm_page.specs.Bytes.{written};
ghost use Rattle.ktm_content.specs.Contents.{cut_to, put_over, units_of};
ghost use Rattle.ktm_content.specs.Places.{CanBePut, LieOn, places_on};

use crate::lent::PlacedRef;
use ktm_page::{NoMemory, PageList, UNIT_BYTES};
use std::alloc::Global;
use std::marker::Model;

/// The content of a file: its size in bytes, and the page of each unit of 4,096 bytes. What a page holds behind the size is not of it.
/// Contracts see the place of each byte in the row of pages, and for how many bytes there is room, up to as many as a size can say.
#[derive(Debug, Drop)]
pub struct Content {
    size: u64,
    pages: Vec<u32>,
}

impl Model for Content {
    ghost use Rattle.std.specs.Prelude.{◌≡◌, ◌+◌, ◌-◌, ◌*◌, ◌/◌, ◌^◌, length, min, vec_capacity};
    ghost use Rattle.ktm_content.specs.Places.{ContentState, places_on};

    ghost Value = { ContentState };

    ghost view = { λ c. record { bytes = places_on c.pages.items c.size; room = min (vec_capacity c.pages * 4096) (2 ^ 64 - 1) } };

    ghost invariant = { λ c. length c.pages.items ≡ (c.size + 4095) / 4096 };
}

// Writes numbers of pages over others.
fn write_at(pages: &mut [u32], first: usize, new: &[u32])
    requires { first + length new.now ≤ length pages.old }
    ensures { pages.new ≡ written pages.old first new.now }
{
    pages[first..first + new.len()].copy_from_slice(new);
}

// Puts numbers of pages over others, and behind them.
fn put_pages(pages: &mut Vec<u32>, first: usize, new: &[u32])
    requires begins { first ≤ length pages.old.items }
    requires room { first + length new.now ≤ vec_capacity pages.old }
    ensures pages { pages.new.items ≡ written pages.old.items first new.now }
    ensures room { vec_capacity pages.old ≤ vec_capacity pages.new }
{
    let len = pages.len().max(first + new.len());
    if let Err(_) = pages.resize(len, 0) {
        unreachable!();
    }
    write_at(pages, first, new);
}

impl Content {
    /// No bytes. It takes no memory.
    pub fn new(alloc: Global) -> Content
        ensures { result.bytes ≡ [] }
    {
        Content {
            size: 0,
            pages: Vec::new(alloc),
        }
    }

    /// So many bytes on these pages, one for each unit.
    pub fn on_pages(size: u64, pages: PageList) -> Content
        requires { length pages ≡ (size + 4095) / 4096 }
        ensures { result.bytes ≡ places_on pages size }
    {
        Content {
            size,
            pages: pages.into_vec(),
        }
    }

    /// How many bytes there are.
    pub fn len(&self) -> u64
        ensures { result ≡ length self.now.bytes }
    {
        self.size
    }

    /// Are there no bytes.
    pub fn is_empty(&self) -> bool
        ensures { IsTrue result ↔ (self.now.bytes ≡ []) }
    {
        self.len() == 0
    }

    /// How many units there are, of which the last one may have fewer bytes.
    pub fn units(&self) -> usize
        ensures { result ≡ units_of self.now.bytes }
    {
        self.pages.len()
    }

    /// The page of each unit.
    pub fn pages(&self) -> &[u32]
        ensures { LieOn result.now self.now.bytes }
    {
        &self.pages
    }

    /// The content, lent.
    pub fn lend(&self) -> PlacedRef<'_>
        ensures { result ≡ self.now.bytes }
    {
        PlacedRef {
            size: self.size,
            pages: &self.pages,
        }
    }

    /// Takes the memory with which there can be so many bytes from the start on. It fails where there is none, and takes none where
    /// there are as many bytes.
    pub fn reserve(&mut self, start: u64, many: u64) -> Result<(), NoMemory>
        ensures bytes { self.new.bytes ≡ self.old.bytes }
        ensures room { OnOk result (start + many ≤ self.new.room) }
        ensures grows { self.old.room ≤ self.new.room }
        ensures enough { start + many ≤ self.old.room → IsOk result }
        ensures within { start + many ≤ length self.old.bytes → IsOk result }
    {
        let pages = &mut self.pages;
        let Some(size) = start.checked_add(many) else {
            return Err(NoMemory);
        };
        let units = size.div_ceil(UNIT_BYTES) as usize;
        pages.reserve(units.saturating_sub(pages.len()))?;
        Ok(())
    }

    /// Puts the pages of others in place of those of the units that they have, and behind them. It takes no memory.
    pub fn put(&mut self, start: u64, part: PlacedRef<'_>)
        requires can { CanBePut self.old.bytes start part }
        requires room { start + length part ≤ self.old.room }
        ensures bytes { self.new.bytes ≡ put_over self.old.bytes start part.entry }
        ensures room { self.old.room ≤ self.new.room }
    {
        let first = (start / UNIT_BYTES) as usize;
        put_pages(&mut self.pages, first, part.pages);
        self.size = self.size.max(start + part.size);
    }

    /// Makes it so short: the pages of the units behind are left. Room is kept.
    pub fn cut(&mut self, size: u64)
        requires { size ≤ length self.old.bytes }
        ensures bytes { self.new.bytes ≡ cut_to self.old.bytes size }
        ensures room { self.new.room ≡ self.old.room }
    {
        self.pages.truncate(size.div_ceil(UNIT_BYTES) as usize);
        self.size = size;
    }
}
