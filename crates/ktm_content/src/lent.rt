// Contents that are lent.
ghost use Rattle.std.specs.Prelude.{◌≡◌, ◌↔◌, [], length, IfOk, IsTrue};
ghost use Rattle.ktm_content.specs.Places.{LieOn};

use crate::content::Content;
use ktm_page::{NoMemory, PageList};
use std::alloc::Global;
use std::marker::Model;

/// A content that is lent: its size in bytes, and the page of each unit. Contracts see the place of each byte.
#[derive(Drop)]
pub struct PlacedRef<'a> {
    pub(crate) size: u64,
    pub(crate) pages: &'a [u32],
}

impl<'a> Model for PlacedRef<'a> {
    ghost use Rattle.std.specs.Prelude.{◌≡◌, ℕ, ◌+◌, ◌/◌, List, length};
    ghost use Rattle.ktm_content.specs.Places.{places_on};

    ghost Value = { List ℕ };

    ghost view = { λ c. places_on c.pages.now c.size };

    ghost invariant = { λ c. length c.pages.now ≡ (c.size + 4095) / 4096 };
}

impl<'a> PlacedRef<'a> {
    /// No bytes.
    pub fn none() -> PlacedRef<'a>
        ensures { result ≡ [] }
    {
        PlacedRef {
            size: 0,
            pages: &[],
        }
    }

    /// How many bytes there are.
    pub fn len(&self) -> u64
        ensures { result ≡ length self.now }
    {
        self.size
    }

    /// Are there no bytes.
    pub fn is_empty(&self) -> bool
        ensures { IsTrue result ↔ (self.now ≡ []) }
    {
        self.len() == 0
    }

    /// The page of each unit.
    pub fn pages(&self) -> &'a [u32]
        ensures { LieOn result.now self.now }
    {
        self.pages
    }

    /// The same bytes on the same pages: their numbers are copied, and no byte is. It fails where there is no memory for them.
    pub fn copy(&self, alloc: Global) -> Result<Content, NoMemory>
        ensures { IfOk result (λ copy. copy.bytes ≡ self.now) }
    {
        let pages = PageList::new(Vec::from_slice(alloc, self.pages)?);
        Ok(Content::on_pages(self.size, pages))
    }
}
