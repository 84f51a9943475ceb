// Which pages are held.
ghost use Rattle.std.specs.Prelude.{◌≡◌, ◌+◌, ◌<◌, ◌∷◌, [], true, None, All, IfOk, IfSome, length, not, position, set};
ghost use Rattle.ktm_store.specs.Marks.{Holds, IsClear, Took, free_ahead, free_from, is_held};

use ktm_base::NoMemory;
use std::alloc::Global;
use std::marker::Model;

/// Which pages are held. A free one is sought from the one on that was found last, so that no page is looked at twice until all are
/// cleared.
#[derive(Drop)]
pub struct Marks {
    held: Vec<bool>,
    next: u32,
    // How many are free from there on.
    free: u32,
}

impl Model for Marks {
    ghost use Rattle.std.specs.Prelude.{◌≡◌};
    ghost use Rattle.ktm_store.specs.Marks.{AreSound, MarksState, free_from};

    ghost Value = { MarksState };

    ghost view = { λ m. record { held = m.held.items; next = m.next } };

    ghost invariant = { λ m. AreSound (record { held = m.held.items; next = m.next }) × (m.free ≡ free_from m.held.items m.next) };
}

// Where the first page is that is not held.
fn first_free(held: &[bool]) -> Option<usize>
    ensures { result ≡ position not held.now }
{
    held.iter().position(|held| !*held)
}

// How many pages fewer are free from the next one on once this one is held.
fn freed(held: &[bool], next: u32, page: u32) -> u32
    requires { page < length held.now }
    ensures { free_from (set held.now page true) next + result ≡ free_from held.now next }
{
    if page < next {
        return 0;
    }
    if held[page as usize] {
        return 0;
    }
    1
}

impl Marks {
    /// The marks of so many pages, of which none is held.
    pub fn new(alloc: Global, count: u32) -> Result<Self, NoMemory>
        ensures { IfOk result (IsClear count) }
    {
        let held = vec![in alloc; false; count as usize]?;
        Ok(Marks {
            held,
            next: 0,
            free: count,
        })
    }

    /// How many pages there are.
    pub fn count(&self) -> u32
        ensures { result ≡ length self.now.held }
    {
        self.held.len() as u32
    }

    /// How many pages are free until all are cleared.
    pub fn free(&self) -> u32
        ensures { result ≡ free_ahead self.now }
    {
        self.free
    }

    /// Is a page held.
    pub fn is_held(&self, page: u32) -> bool
        requires { page < length self.now.held }
        ensures { result ≡ is_held self.now.held page }
    {
        self.held[page as usize]
    }

    /// Holds the next page that is free; None where none is until all are cleared.
    pub fn take(&mut self) -> Option<u32>
        ensures some { IfSome result (λ page. Took self.old page self.new) }
        ensures none { result ≡ None → (free_ahead self.old ≡ 0) × (self.new ≡ self.old) }
    {
        let free = first_free(&self.held[self.next as usize..])?;
        let page = self.next as usize + free;
        self.held[page] = true;
        self.next = page as u32 + 1;
        self.free -= 1;
        Some(page as u32)
    }

    /// Holds none.
    pub fn clear(&mut self)
        ensures { IsClear (length self.old.held) self.new }
    {
        self.held.fill(false);
        self.next = 0;
        self.free = self.held.len() as u32;
    }

    /// Holds a page.
    pub fn hold(&mut self, page: u32)
        requires { page < length self.old.held }
        ensures { Holds (page ∷ []) self.old self.new }
    {
        self.free -= freed(&self.held, self.next, page);
        self.held[page as usize] = true;
    }

    /// Holds these pages.
    pub fn hold_all(&mut self, pages: &[u32])
        requires { All (λ page. page < length self.old.held) pages.now }
        ensures { Holds pages.now self.old self.new }
    {
        for page in pages {
            self.hold(*page);
        }
    }
}
