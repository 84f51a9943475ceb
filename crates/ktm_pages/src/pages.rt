// Which pages of an image are out.
ghost use Rattle.std.specs.Prelude.{◌≡◌, ℕ, ◌+◌, ◌*◌, ◌<◌, ◌≤◌, ◌^◌, [], None, All, IfOk, IfSome, length, slice_index, vec_capacity};
ghost use Rattle.ktm_page.specs.Space.{Gave, Shared, Took, free_below};
ghost use Rattle.ktm_pages.specs.Pages.{HasFree, count_of, holders_of, pages_of, places_of};

use ktm_base::{NoMemory, PageList};
use ktm_page::PageSpace;
use std::alloc::Global;
use std::marker::Model;

/// The pages of an image, each with its number of holders. Taking, sharing and giving one takes no memory and no walk.
#[derive(Drop)]
pub struct Pages {
    // how many holders each page has
    holders: Vec<u32>,
    // the pages without one, with room for all pages
    free: Vec<u32>,
}

impl Model for Pages {
    ghost use Rattle.std.specs.Prelude.{vec_capacity};
    ghost use Rattle.ktm_pages.specs.Pages.{AreSound, PagesState};

    ghost Value = { PagesState };

    ghost view = { λ p. record { each = p.holders.items } };

    ghost invariant = { λ p. AreSound p.holders.items p.free.items (vec_capacity p.free) };
}

// Gives each page as many holders as it has places in the list.
fn count_places(holders: &mut [u32], out: &[u32])
    requires none { (page : ℕ) → slice_index holders.old page ≡ 0 }
    requires below { All (λ page. page < length holders.old) out.now }
    requires few { (page : ℕ) → places_of out.now page < 2 ^ 32 }
    ensures { (page : ℕ) → slice_index holders.new page ≡ places_of out.now page }
{
    for page in out {
        holders[*page as usize] += 1;
    }
}

// Puts the pages without a holder onto the stack, the first one on top.
fn stack_free(holders: &[u32], free: &mut Vec<u32>)
    requires empty { free.old.items ≡ [] }
    requires room { length holders.now ≤ vec_capacity free.old }
    requires few { length holders.now < 2 ^ 32 }
    ensures free { HasFree holders.now free.new.items }
    ensures room { length holders.now ≤ vec_capacity free.new }
{
    let mut page = holders.len();
    while page > 0 {
        page -= 1;
        if holders[page] == 0 {
            free.push(page as u32).unwrap();
        }
    }
}

impl Pages {
    /// The pages of an image of so many units. Each has as many holders as it has places in the list.
    pub fn new(alloc: Global, units: u32, out: &PageList) -> Result<Self, NoMemory>
        requires units { units ≤ 2 ^ 14 }
        requires below { All (λ page. page < pages_of units) out.now }
        requires few { (page : ℕ) → places_of out.now page < 2 ^ 32 }
        ensures count { IfOk result (λ pages. count_of pages ≡ pages_of units) }
        ensures holders { IfOk result (λ pages. (page : ℕ) → holders_of pages page ≡ places_of out.now page) }
    {
        let count = 2 * units as usize + 64;
        let mut holders = vec![in alloc; 0u32; count]?;
        let mut free = Vec::with_capacity(alloc, count)?;
        count_places(&mut holders, out.as_slice());
        stack_free(&holders, &mut free);
        Ok(Pages { holders, free })
    }
}

impl PageSpace for Pages {
    ghost count = { count_of };

    ghost holders = { holders_of };

    fn take(&mut self) -> Option<u32> {
        let page = self.free.pop()?;
        self.holders[page as usize] = 1;
        Some(page)
    }

    fn share(&mut self, page: u32) {
        self.holders[page as usize] += 1;
    }

    fn give(&mut self, page: u32) {
        self.holders[page as usize] -= 1;
        if self.holders[page as usize] == 0 {
            self.free.push(page).unwrap();
        }
    }

    fn free(&self) -> u32 {
        self.free.len() as u32
    }
}
