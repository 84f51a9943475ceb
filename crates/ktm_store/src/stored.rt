// Which pages are stored, and which of them are still to be written.
ghost use Rattle.std.specs.Prelude.{◌≡◌, ◌+◌, ◌<◌, ◌≤◌, ◌++◌, ◌∷◌, [], true, false, All, IfOk, length, replicate, set, if◌then◌else◌};
ghost use Rattle.ktm_store.specs.Stored.{is_stored, stored_count};

use ktm_base::NoMemory;
use std::alloc::Global;
use std::marker::Model;

/// Which pages are stored: each of them is on the disk, as it is in memory if it is there, or it is among those that are to be written, in
/// the order in which they came.
#[derive(Drop)]
pub struct Stored {
    stored: Vec<bool>,
    wanted: Vec<u32>,
    // How many are not stored.
    missing: u32,
}

impl Model for Stored {
    ghost use Rattle.std.specs.Prelude.{◌≡◌, ◌+◌, ◌<◌, ◌≤◌, ◌^◌, length, vec_capacity};
    ghost use Rattle.ktm_store.specs.Stored.{AreWanted, StoredState, stored_count};

    ghost Value = { StoredState };

    ghost view = { λ s. record { stored = s.stored.items; wanted = s.wanted.items } };

    ghost invariant = { λ s. AreWanted (record { stored = s.stored.items; wanted = s.wanted.items }) × (length s.stored.items ≤ vec_capacity s.wanted) × (s.missing + stored_count s.stored.items ≡ length s.stored.items) × (length s.stored.items < 2 ^ 32) };
}

impl Stored {
    /// Of so many pages all are stored, and none is to be written. It takes all memory that it ever needs.
    pub fn new(alloc: Global, count: u32) -> Result<Self, NoMemory>
        ensures { IfOk result (λ s. s ≡ record { stored = replicate count true; wanted = [] }) }
    {
        let stored = vec![in alloc; true; count as usize]?;
        let wanted = Vec::with_capacity(alloc, count as usize)?;
        Ok(Stored {
            stored,
            wanted,
            missing: 0,
        })
    }

    /// Which pages are stored.
    pub fn all(&self) -> &[bool]
        ensures { result.now ≡ self.now.stored }
    {
        &self.stored
    }

    /// How many pages are not stored.
    pub fn missing(&self) -> u32
        ensures { result + stored_count self.now.stored ≡ length self.now.stored }
    {
        self.missing
    }

    /// A page is not on the disk as it is in memory.
    pub fn forget(&mut self, page: u32)
        requires below { page < length self.old.stored }
        requires none { self.old.wanted ≡ [] }
        ensures { self.new ≡ record self.old { stored = set self.old.stored page false } }
    {
        if !self.stored[page as usize] {
            return;
        }
        self.stored[page as usize] = false;
        self.missing += 1;
    }

    /// A page is to be written, unless it is stored.
    pub fn want(&mut self, page: u32)
        requires { page < length self.old.stored }
        ensures { self.new ≡ (if is_stored self.old.stored page then self.old else record { stored = set self.old.stored page true; wanted = self.old.wanted ++ page ∷ [] }) }
    {
        if self.stored[page as usize] {
            return;
        }
        self.stored[page as usize] = true;
        self.missing -= 1;
        self.wanted.push(page).unwrap();
    }

    /// The pages that are to be written.
    pub fn wanted(&self) -> &[u32]
        ensures wanted { result.now ≡ self.now.wanted }
        ensures stored { All (λ page. is_stored self.now.stored page ≡ true) result.now }
        ensures few { length result.now ≤ length self.now.stored }
    {
        &self.wanted
    }

    /// They were written.
    pub fn forget_wanted(&mut self)
        ensures { self.new ≡ record self.old { wanted = [] } }
    {
        self.wanted.clear();
    }
}
