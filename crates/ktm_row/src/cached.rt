// The pages of a row through a cache.
ghost use Rattle.std.specs.Prelude.{◌≡◌, ℕ, ◌+◌, ◌*◌, ◌<◌, ◌≤◌, ◌^◌, length, IfSome, OnErr, OnOk, is_err};
ghost use Rattle.std.proofs.Props.{props};
ghost use Rattle.ktm_base.specs.declared.limits.TheConstants.{MOST_PENDING, UNIT_BYTES};
ghost use Rattle.ktm_base.specs.Disk.{DeviceCalls, IsSafe};
ghost use Rattle.ktm_base.specs.Told.{Goes};
ghost use Rattle.ktm_page.specs.Row.{LostPage, WrotePage, page_of};
ghost use Rattle.ktm_pages.specs.Cache.{Agrees, Keeps, used, without};
ghost use Rattle.ktm_row.specs.Places.{Stands, StaysBehind, end_of, row_told};

use crate::Row;
use ktm_base::{Disk, Down};
use ktm_page::PageIo;
use ktm_pages::Cache;

/// The pages of a row, of which a cache keeps those that were used last.
#[derive(Drop)]
pub struct CachedRow<'a, D: Disk> {
    disk: &'a mut D,
    cache: &'a mut Cache,
    begin: u64,
    pages: u32,
    waits: usize,
    ghost whole: { end_of begin pages < 2 ^ 64 },
    ghost stands: { IfSome (D.told disk.now) (Stands begin pages) } by { Prim.hlevel props },
    ghost counted: { (D.status disk.now).pending ≤ waits },
    ghost few: { waits ≤ MOST_PENDING },
    ghost agrees: { Agrees cache.now (row_told begin pages (D.told disk.now)) } by { Prim.hlevel props },
}

impl<'a, D: Disk> CachedRow<'a, D> {
    /// The pages of a row, through a cache that has nothing else than what the row has.
    pub fn new(disk: &'a mut D, begin: u64, pages: u32, cache: &'a mut Cache) -> CachedRow<'a, D>
        requires whole { end_of begin pages < 2 ^ 64 }
        requires fits { IfSome (D.told disk.old) (λ s. end_of begin pages ≤ length s.seen) }
        requires safe { IfSome (D.told disk.old) IsSafe }
        requires pending { (D.status disk.old).pending ≡ 0 }
        requires agrees { Agrees cache.old (row_told begin pages (D.told disk.old)) }
        ensures same_disk { result.disk.ghost_name ≡ disk.entry.ghost_name }
        ensures same_cache { result.cache.ghost_name ≡ cache.entry.ghost_name }
        ensures disk { result.disk.now ≡ disk.old }
        ensures cache { result.cache.now ≡ cache.old }
        ensures begin { result.begin ≡ begin }
        ensures pages { result.pages ≡ pages }
    {
        CachedRow {
            disk,
            cache,
            begin,
            pages,
            waits: 0,
        }
    }

    /// The disk and the cache are their lenders' again.
    pub fn end(self)
        ensures disk { self.exit.0.now ≡ self.entry.disk.now }
        ensures cache { self.exit.1.0.now ≡ self.entry.cache.now }
        ensures stands { IfSome (D.told self.exit.0.now) (Stands self.entry.begin self.entry.pages) }
        ensures agrees { Agrees self.exit.1.0.now (row_told self.entry.begin self.entry.pages (D.told self.exit.0.now)) }
        ensures pending { (D.status self.exit.0.now).pending ≤ MOST_PENDING }
    {}
}

impl<'a, D: Disk> PageIo for CachedRow<'a, D> {
    ghost told = { λ r. row_told r.begin r.pages (D.told r.disk.now) };

    ghost status = { λ r. D.status r.disk.now };

    ghost count = { λ r. r.pages };

    ghost keeps = { λ s t. (t.disk.ghost_name ≡ s.disk.ghost_name) × (t.cache.ghost_name ≡ s.cache.ghost_name) × (t.begin ≡ s.begin) × (t.pages ≡ s.pages) × Goes (StaysBehind s.begin s.pages) (D.told s.disk.now) (D.told t.disk.now) };

    fn read_page(&mut self, page: u32, buf: &mut [u8; 4096]) -> Result<(), Down>
        requires { page < self.old.pages }
        ensures value { OnOk result (IfSome (row_told self.old.begin self.old.pages (D.told self.old.disk.now)) (λ r. buf.new ≡ page_of r.seen page)) }
        ensures same { row_told self.new.begin self.new.pages (D.told self.new.disk.now) ≡ row_told self.old.begin self.old.pages (D.told self.old.disk.now) }
        ensures count { self.new.pages ≡ self.old.pages }
        ensures keeps { (self.new.disk.ghost_name ≡ self.old.disk.ghost_name) × (self.new.cache.ghost_name ≡ self.old.cache.ghost_name) × (self.new.begin ≡ self.old.begin) × (self.new.pages ≡ self.old.pages) × Goes (StaysBehind self.old.begin self.old.pages) (D.told self.old.disk.now) (D.told self.new.disk.now) }
        ensures calls { DeviceCalls 2 (D.status self.old.disk.now) (D.status self.new.disk.now) (is_err result) }
        ensures kept { Keeps self.old.cache.now page → OnErr result ⊥ × (self.new.disk.now ≡ self.old.disk.now) }
        ensures used { OnOk result (self.new.cache.now.kept ≡ used page buf.new self.old.cache.now.kept) }
        ensures err { OnErr result (self.new.cache.now ≡ self.old.cache.now) }
    {
        let mut row = Row::again(self.disk, self.begin, self.pages, self.waits);
        let result = self.cache.read(&mut row, page, buf);
        self.waits = row.waits();
        row.end();
        result
    }

    fn write_page(&mut self, page: u32, bytes: &[u8; 4096]) -> Result<(), Down>
        requires { page < self.old.pages }
        ensures ok { OnOk result (Goes (WrotePage page bytes.now) (row_told self.old.begin self.old.pages (D.told self.old.disk.now)) (row_told self.new.begin self.new.pages (D.told self.new.disk.now))) }
        ensures err { OnErr result (Goes (LostPage page) (row_told self.old.begin self.old.pages (D.told self.old.disk.now)) (row_told self.new.begin self.new.pages (D.told self.new.disk.now))) }
        ensures count { self.new.pages ≡ self.old.pages }
        ensures keeps { (self.new.disk.ghost_name ≡ self.old.disk.ghost_name) × (self.new.cache.ghost_name ≡ self.old.cache.ghost_name) × (self.new.begin ≡ self.old.begin) × (self.new.pages ≡ self.old.pages) × Goes (StaysBehind self.old.begin self.old.pages) (D.told self.old.disk.now) (D.told self.new.disk.now) }
        ensures calls { DeviceCalls 2 (D.status self.old.disk.now) (D.status self.new.disk.now) (is_err result) }
        ensures used { OnOk result (self.new.cache.now.kept ≡ used page bytes.now self.old.cache.now.kept) }
        ensures forgotten { OnErr result (self.new.cache.now.kept ≡ without page self.old.cache.now.kept) }
    {
        let mut row = Row::again(self.disk, self.begin, self.pages, self.waits);
        let result = self.cache.write(&mut row, page, bytes);
        self.waits = row.waits();
        row.end();
        result
    }

    ghost use Rattle.ktm_row.specs.Lengths.{row_lengths};
    ghost use Rattle.std.proofs.Common.{refl, ◌∙◌};
    ghost use Rattle.ktm_row.specs.Keeping.{stays_none, stays_then};

    ghost lengths = { λ r. row_lengths r.begin r.pages (D.told r.disk.now) r.stands };

    ghost keeps_none = { λ r. (refl, refl, refl, refl, stays_none r.begin r.pages (D.told r.disk.now)) };

    ghost keeps_then = { λ r s t k l. (l.0 ∙ k.0, l.1 ∙ k.1, l.2 ∙ k.2, l.3 ∙ k.3, stays_then r.begin r.pages s.begin s.pages (D.told r.disk.now) (D.told s.disk.now) (D.told t.disk.now) k.2 k.3 k.4 l.4) };
}
