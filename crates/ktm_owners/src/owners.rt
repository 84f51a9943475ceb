// The owner of each page, and the pages that are named.
ghost use Rattle.std.specs.Prelude.{◌≡◌, ℕ, ◌+◌, ◌*◌, ◌^◌, ◌<◌, ◌++◌, List, [], IfOk, OnOk, get_or, length, slice_set};
ghost use Rattle.ktm_content.specs.Places.{LieOn};
ghost use Rattle.ktm_owners.specs.declared.owners.Named.{Named as Name};
ghost use Rattle.ktm_owners.specs.Owners.{AreAllNamedBy, AreNamedBy, is_same_unit, named_from, no_owner, owner_at};

use ktm_base::{NoMemory, UNIT_BYTES};
use ktm_content::PlacedRef;
use ktm_world::{Change, Contents};
use std::alloc::Global;
use std::marker::Model;

/// A unit of a file.
#[derive(Clone, Copy)]
pub struct Owner {
    pub node: u64,
    pub unit: u64,
}

/// A page, and the unit that lies on it.
#[derive(Clone, Copy)]
pub struct Named {
    pub page: u32,
    pub owner: Owner,
}

/// The owner of each page as far as it was named, and the pages that are named now.
#[derive(Drop)]
pub struct Owners {
    // By page. An owner stays here once its unit lies elsewhere.
    owners: Vec<Owner>,
    named: Vec<Named>,
}

impl Model for Owners {
    ghost use Rattle.ktm_owners.specs.Owners.{OwnersState};

    ghost Value = { OwnersState };

    ghost view = { λ o. record { owners = o.owners.items; named = o.named.items } };
}

// No unit that a file has.
fn no_owner() -> Owner
    ensures { result ≡ no_owner }
{
    Owner { node: 0, unit: 0 }
}

/// Are both the same unit of the same file.
pub fn is_same_unit(a: Owner, b: Owner) -> bool
    ensures { result ≡ is_same_unit a b }
{
    a.node == b.node && a.unit == b.unit
}

// Contents have no more bytes than their size tells.
fn law_of_sizes(contents: &PlacedRef<'_>)
    ensures { length contents.now < 2 ^ 64 }
{
    let _len = contents.len();
}

impl Owners {
    /// So many pages of no unit. There is room for as many names.
    pub fn new(alloc: Global, count: u32) -> Result<Self, NoMemory>
        ensures { IfOk result (λ made. length made.owners ≡ count) }
    {
        let count = count as usize;
        Ok(Owners {
            owners: vec![in alloc; no_owner(); count]?,
            named: Vec::with_capacity(alloc, count)?,
        })
    }

    /// How many pages there are.
    pub fn count(&self) -> usize
        ensures { result ≡ length self.now.owners }
    {
        self.owners.len()
    }

    /// How many pages are named.
    pub fn named_count(&self) -> usize
        ensures { result ≡ length self.now.named }
    {
        self.named.len()
    }

    /// The page that is named at this place.
    pub fn named(&self, index: usize) -> Named
        requires { index < length self.now.named }
        ensures { result ≡ get_or self.now.named index result }
    {
        self.named[index]
    }

    /// The owner of a page.
    pub fn owner(&self, page: u32) -> Owner
        requires { page < length self.now.owners }
        ensures { result ≡ owner_at self.now.owners page }
    {
        self.owners[page as usize]
    }

    /// Another unit lies on the page.
    pub fn give(&mut self, name: Named)
        requires { name.page < length self.old.owners }
        ensures owners { self.new.owners ≡ slice_set self.old.owners name.page name.owner }
        ensures named { self.new.named ≡ self.old.named }
    {
        self.owners[name.page as usize] = name.owner;
    }

    /// No page is named.
    pub fn name_none(&mut self)
        ensures owners { self.new.owners ≡ self.old.owners }
        ensures named { self.new.named ≡ [] }
    {
        self.named.clear();
    }

    // Names pages on which units lie, from this one on.
    fn name_pages(&mut self, first: Owner, pages: &[u32]) -> Result<(), NoMemory>
        requires { first.unit + length pages.now < 2 ^ 64 }
        ensures owners { self.new.owners ≡ self.old.owners }
        ensures named { OnOk result (self.new.named ≡ self.old.named ++ named_from first pages.now) }
    {
        let mut owner = first;
        for page in pages {
            self.named.push(Named { page: *page, owner })?;
            owner.unit += 1;
        }
        Ok(())
    }

    /// Names the pages of contents, which are those of their file from this unit on.
    pub fn name_contents(&mut self, first: Owner, contents: PlacedRef<'_>) -> Result<(), NoMemory>
        requires { first.unit * 4096 < 2 ^ 64 }
        ensures owners { self.new.owners ≡ self.old.owners }
        ensures named { OnOk result ((pages : List ℕ) × LieOn pages contents.entry × (self.new.named ≡ self.old.named ++ named_from first pages)) }
    {
        law_of_sizes(&contents);
        self.name_pages(first, contents.pages())
    }

    /// Names the pages of what a change puts.
    #[inline(always)]
    pub fn name_change(&mut self, change: &Change) -> Result<(), NoMemory>
        ensures owners { self.new.owners ≡ self.old.owners }
        ensures named { OnOk result ((names : List Name) × AreNamedBy change.now names × (self.new.named ≡ self.old.named ++ names)) }
    {
        match change {
            Change::Put {
                node,
                offset,
                contents: Contents::Whole(placed),
            } => {
                let first = Owner {
                    node: *node,
                    unit: *offset / UNIT_BYTES,
                };
                self.name_contents(first, placed.lend())
            }
            _ => Ok(()),
        }
    }

    /// Names the pages of what changes put.
    pub fn name_changes(&mut self, changes: &[Change]) -> Result<(), NoMemory>
        ensures owners { self.new.owners ≡ self.old.owners }
        ensures named { OnOk result ((names : List Name) × AreAllNamedBy changes.now names × (self.new.named ≡ self.old.named ++ names)) }
    {
        for change in changes {
            self.name_change(change)?;
        }
        Ok(())
    }
}
