// Which frame a page has.
ghost use Rattle.std.specs.Prelude.{◌≡◌, ◌≢◌, ℕ, ◌+◌, ◌<◌, ◌≤◌, IfOk, IfSome, MatchOption, OnErr, OnOk, Some, None, length, replicate, set};
ghost use Rattle.ktm_store.specs.Frames.{AreOwned, GaveUp, HasNoOwn, at_in};

use ktm_base::NoMemory;
use std::alloc::Global;
use std::marker::Model;

// The frame of all pages that are blank.
const BLANK: u32 = 0;

/// Which frame a page has: one of its own, or the blank one, or none.
#[derive(Drop)]
pub(crate) struct Owners {
    // Of each page its frame.
    at: Vec<Option<u32>>,
    // Of each frame the page whose own it is.
    owner: Vec<Option<u32>>,
    // The frames that are no page's own, but the blank one.
    spare: Vec<u32>,
    // The frame that was looked at last for one to be given up.
    hand: usize,
}

impl Model for Owners {
    ghost use Rattle.std.specs.Prelude.{◌<◌, length};
    ghost use Rattle.ktm_store.specs.Frames.{AreOwned, OwnersState};

    ghost Value = { OwnersState };

    ghost view = { λ o. record { at = o.at.items; count = length o.owner.items; spare = length o.spare.items } };

    ghost invariant = { λ o. AreOwned o.at.items o.owner.items o.spare.items × (o.hand < length o.owner.items) };
}

// A page that has no frame takes one that is spare.
fn give(
    at: &mut Vec<Option<u32>>,
    owner: &mut Vec<Option<u32>>,
    spare: &mut Vec<u32>,
    page: u32,
) -> u32
    requires owned { AreOwned at.old.items owner.old.items spare.old.items }
    requires below { page < length at.old.items }
    requires none { HasNoOwn at.old.items page }
    requires spare { 0 < length spare.old.items }
    ensures owned { AreOwned at.new.items owner.new.items spare.new.items }
    ensures at { at.new.items ≡ set at.old.items page (Some result) }
    ensures owner { owner.new.items ≡ set owner.old.items result (Some page) }
    ensures spare { length spare.new.items + 1 ≡ length spare.old.items }
    ensures own { result ≢ 0 }
{
    let Some(frame) = spare.pop() else {
        unreachable!();
    };
    owner[frame as usize] = Some(page);
    at[page as usize] = Some(frame);
    frame
}

impl Owners {
    /// Of so many pages none has a frame, and there is the blank one alone.
    pub fn new(alloc: Global, pages: u32) -> Result<Self, NoMemory>
        ensures { IfOk result (λ owners. owners ≡ record { at = replicate pages None; count = 1; spare = 0 }) }
    {
        let at = vec![in alloc; None; pages as usize]?;
        let owner = vec![in alloc; None; 1]?;
        Ok(Owners {
            at,
            owner,
            spare: Vec::new(alloc),
            hand: 0,
        })
    }

    /// How many frames there are.
    pub fn count(&self) -> usize
        ensures count { result ≡ self.now.count }
        ensures within { (page frame : ℕ) → at_in self.now.at page ≡ Some frame → frame < self.now.count }
    {
        self.owner.len()
    }

    /// How many frames are spare.
    pub fn spare(&self) -> usize
        ensures { result ≡ self.now.spare }
    {
        self.spare.len()
    }

    /// The frame of a page.
    pub fn frame(&self, page: u32) -> Option<u32>
        requires { page < length self.now.at }
        ensures is { result ≡ at_in self.now.at page }
        ensures within { IfSome result (λ frame. frame < self.now.count) }
    {
        self.at[page as usize]
    }

    /// The frame that a page has for itself.
    pub fn own(&self, page: u32) -> Option<u32>
        requires { page < length self.now.at }
        ensures is { MatchOption result (HasNoOwn self.now.at page) (λ frame. (at_in self.now.at page ≡ Some frame) × (frame ≢ 0)) }
        ensures within { IfSome result (λ frame. frame < self.now.count) }
        ensures alone { IfSome result (λ frame. (other : ℕ) → other ≢ page → at_in self.now.at other ≢ Some frame) }
    {
        let frame = self.at[page as usize]?;
        if frame == BLANK {
            return None;
        }
        Some(frame)
    }

    /// The frame that a page has for itself, which is one that is spare where it had none.
    pub fn take(&mut self, page: u32) -> u32
        requires below { page < length self.old.at }
        requires spare { 0 < self.old.spare }
        ensures at { self.new.at ≡ set self.old.at page (Some result) }
        ensures alone { (other : ℕ) → other ≢ page → at_in self.old.at other ≢ Some result }
        ensures own { result ≢ 0 }
        ensures within { result < self.new.count }
        ensures count { self.new.count ≡ self.old.count }
        ensures spare { self.old.spare ≤ self.new.spare + 1 }
    {
        if let Some(frame) = self.own(page) {
            return frame;
        }
        give(&mut self.at, &mut self.owner, &mut self.spare, page)
    }

    /// A page that has no frame for itself has the blank one.
    pub fn blank(&mut self, page: u32)
        requires below { page < length self.old.at }
        requires none { HasNoOwn self.old.at page }
        ensures { self.new ≡ record self.old { at = set self.old.at page (Some 0) } }
    {
        self.at[page as usize] = Some(BLANK);
    }

    /// There is one frame more, which is spare. Out of memory nothing changes.
    pub fn add(&mut self) -> Result<(), NoMemory>
        ensures ok { OnOk result (self.new ≡ record self.old { count = self.old.count + 1; spare = self.old.spare + 1 }) }
        ensures err { OnErr result (self.new ≡ self.old) }
    {
        let Ok(frame) = u32::try_from(self.owner.len()) else {
            return Err(NoMemory);
        };
        self.spare.reserve(1)?;
        self.owner.push(None)?;
        self.spare.push_reserved(frame);
        Ok(())
    }

    // Looks at the next frame: where it is the own one of a page that is stored, that page gives it up.
    fn pass(&mut self, stored: &[bool]) -> Result<(), NoMemory>
        requires { length stored.now ≡ length self.old.at }
        ensures gave { GaveUp stored.now self.old self.new }
        ensures err { OnErr result (self.new ≡ self.old) }
    {
        self.hand = (self.hand + 1) % self.owner.len();
        let Some(page) = self.owner[self.hand] else {
            return Ok(());
        };
        if stored[page as usize] {
            self.spare.push(self.hand as u32)?;
            self.owner[self.hand] = None;
            self.at[page as usize] = None;
        }
        Ok(())
    }

    /// Pages that are stored give up their frames, in turn, until so many are spare, or none of them has one.
    pub fn give_up(&mut self, stored: &[bool], spare: usize) -> Result<(), NoMemory>
        requires { length stored.now ≡ length self.old.at }
        ensures gave { GaveUp stored.now self.old self.new }
        ensures err { OnErr result (self.new.spare < spare) }
    {
        for _ in 0..self.count() {
            if self.spare() >= spare {
                break;
            }
            self.pass(stored)?;
        }
        Ok(())
    }
}
