// The pages of an image over its disk.
ghost use Rattle.std.specs.Prelude.{◌≡◌, ℕ, ◌+◌, ◌*◌, ◌<◌, ◌≤◌, ◌^◌, length, IfSome, OnErr, OnOk, is_err};
ghost use Rattle.std.proofs.Props.{props};
ghost use Rattle.ktm_base.specs.declared.limits.TheConstants.{MOST_PENDING, UNIT_BYTES};
ghost use Rattle.ktm_base.specs.Disk.{DeviceCall, DeviceCalls, IsSafe};
ghost use Rattle.ktm_base.specs.Told.{Goes};
ghost use Rattle.ktm_page.specs.Row.{LostPage, WrotePage, page_of};
ghost use Rattle.ktm_row.specs.Places.{Rested, RowSynced, Stands, StaysBehind, end_of, row_told};

use crate::place::{get_page, put_page};
use ktm_base::{Disk, Down, MOST_PENDING};
use ktm_page::PageIo;

/// Pages of 4,096 bytes that stand on a disk from an offset on, one behind another. Nothing else of the disk is written:
/// who lent it learns so by what the row keeps in each call, made at its type or by the trait.
#[derive(Drop)]
pub struct Row<'a, D: Disk> {
    disk: &'a mut D,
    // where the first page begins
    begin: u64,
    pages: u32,
    // how many writes there were since the last sync, or more
    waits: usize,
    ghost whole: { end_of begin pages < 2 ^ 64 },
    ghost stands: { IfSome (D.told disk.now) (Stands begin pages) } by { Prim.hlevel props },
    ghost counted: { (D.status disk.now).pending ≤ waits },
    ghost few: { waits ≤ MOST_PENDING },
}

impl<'a, D: Disk> Row<'a, D> {
    /// The pages from an offset on. Nothing on the disk waits for a sync.
    pub fn new(disk: &'a mut D, begin: u64, pages: u32) -> Row<'a, D>
        requires whole { end_of begin pages < 2 ^ 64 }
        requires fits { IfSome (D.told disk.old) (λ s. end_of begin pages ≤ length s.seen) }
        requires safe { IfSome (D.told disk.old) IsSafe }
        requires pending { (D.status disk.old).pending ≡ 0 }
        ensures same_reference { result.disk.ghost_name ≡ disk.entry.ghost_name }
        ensures same { result.disk.now ≡ disk.old }
        ensures begin { result.begin ≡ begin }
        ensures pages { result.pages ≡ pages }
    {
        Row {
            disk,
            begin,
            pages,
            waits: 0,
        }
    }

    /// Makes what was written stay.
    pub fn sync(&mut self) -> Result<(), Down>
        ensures same_reference { self.new.disk.ghost_name ≡ self.old.disk.ghost_name }
        ensures begin { self.new.begin ≡ self.old.begin }
        ensures pages { self.new.pages ≡ self.old.pages }
        ensures ok { OnOk result (Goes RowSynced (row_told self.old.begin self.old.pages (D.told self.old.disk.now)) (row_told self.old.begin self.old.pages (D.told self.new.disk.now))) }
        ensures safe { OnOk result (IfSome (D.told self.new.disk.now) IsSafe) }
        ensures pending { OnOk result ((D.status self.new.disk.now).pending ≡ 0) }
        ensures waits { OnOk result (self.new.waits ≡ 0) }
        ensures err { OnErr result (D.told self.new.disk.now ≡ D.told self.old.disk.now) }
        ensures behind { Goes (StaysBehind self.old.begin self.old.pages) (D.told self.old.disk.now) (D.told self.new.disk.now) }
        ensures call { DeviceCall (D.status self.old.disk.now) (D.status self.new.disk.now) (is_err result) }
        ensures keeps { (self.new.disk.ghost_name ≡ self.old.disk.ghost_name) × (self.new.begin ≡ self.old.begin) × (self.new.pages ≡ self.old.pages) × Goes (StaysBehind self.old.begin self.old.pages) (D.told self.old.disk.now) (D.told self.new.disk.now) }
    {
        if let Err(Down) = self.disk.sync() {
            return Err(Down);
        }
        self.waits = 0;
        Ok(())
    }

    /// The disk is its lender's again: as the row had it, with nothing dirty but pages of the row.
    pub fn end(self)
        ensures same { self.exit.0.now ≡ self.entry.disk.now }
        ensures stands { IfSome (D.told self.exit.0.now) (Stands self.entry.begin self.entry.pages) }
        ensures pending { (D.status self.exit.0.now).pending ≤ self.entry.waits }
    {}

    // The row that stands there already.
    pub(crate) fn again(disk: &'a mut D, begin: u64, pages: u32, waits: usize) -> Row<'a, D>
        requires whole { end_of begin pages < 2 ^ 64 }
        requires stands { IfSome (D.told disk.old) (Stands begin pages) }
        requires counted { (D.status disk.old).pending ≤ waits }
        requires few { waits ≤ MOST_PENDING }
        ensures same_reference { result.disk.ghost_name ≡ disk.entry.ghost_name }
        ensures same { result.disk.now ≡ disk.old }
        ensures begin { result.begin ≡ begin }
        ensures pages { result.pages ≡ pages }
    {
        Row {
            disk,
            begin,
            pages,
            waits,
        }
    }

    // How many writes there were since the last sync, or more.
    pub(crate) fn waits(&self) -> usize
        ensures { result ≡ self.now.waits }
    {
        self.waits
    }

    // Makes what was written stay where as many writes wait for it as may.
    fn make_room(&mut self) -> Result<(), Down>
        ensures same_reference { self.new.disk.ghost_name ≡ self.old.disk.ghost_name }
        ensures begin { self.new.begin ≡ self.old.begin }
        ensures pages { self.new.pages ≡ self.old.pages }
        ensures room { OnOk result (self.new.waits < MOST_PENDING) }
        ensures rested { Goes Rested (row_told self.old.begin self.old.pages (D.told self.old.disk.now)) (row_told self.old.begin self.old.pages (D.told self.new.disk.now)) }
        ensures behind { Goes (StaysBehind self.old.begin self.old.pages) (D.told self.old.disk.now) (D.told self.new.disk.now) }
        ensures calls { DeviceCalls 1 (D.status self.old.disk.now) (D.status self.new.disk.now) (is_err result) }
    {
        if self.waits < MOST_PENDING {
            return Ok(());
        }
        if let Err(Down) = self.sync() {
            return Err(Down);
        }
        Ok(())
    }
}

impl<'a, D: Disk> PageIo for Row<'a, D> {
    ghost told = { λ r. row_told r.begin r.pages (D.told r.disk.now) };

    ghost status = { λ r. D.status r.disk.now };

    ghost count = { λ r. r.pages };

    ghost keeps = { λ s t. (t.disk.ghost_name ≡ s.disk.ghost_name) × (t.begin ≡ s.begin) × (t.pages ≡ s.pages) × Goes (StaysBehind s.begin s.pages) (D.told s.disk.now) (D.told t.disk.now) };

    fn read_page(&mut self, page: u32, buf: &mut [u8; 4096]) -> Result<(), Down>
        requires { page < self.old.pages }
        ensures value { OnOk result (IfSome (row_told self.old.begin self.old.pages (D.told self.old.disk.now)) (λ r. buf.new ≡ page_of r.seen page)) }
        ensures same { row_told self.new.begin self.new.pages (D.told self.new.disk.now) ≡ row_told self.old.begin self.old.pages (D.told self.old.disk.now) }
        ensures count { self.new.pages ≡ self.old.pages }
        ensures calls { DeviceCalls 2 (D.status self.old.disk.now) (D.status self.new.disk.now) (is_err result) }
        ensures same_reference { self.new.disk.ghost_name ≡ self.old.disk.ghost_name }
        ensures begin { self.new.begin ≡ self.old.begin }
        ensures unchanged { D.told self.new.disk.now ≡ D.told self.old.disk.now }
        ensures keeps { (self.new.disk.ghost_name ≡ self.old.disk.ghost_name) × (self.new.begin ≡ self.old.begin) × (self.new.pages ≡ self.old.pages) × Goes (StaysBehind self.old.begin self.old.pages) (D.told self.old.disk.now) (D.told self.new.disk.now) }
        ensures call { DeviceCall (D.status self.old.disk.now) (D.status self.new.disk.now) (is_err result) }
    {
        if let Err(Down) = get_page(self.disk, self.begin, self.pages, page, buf) {
            return Err(Down);
        }
        Ok(())
    }

    fn write_page(&mut self, page: u32, bytes: &[u8; 4096]) -> Result<(), Down>
        requires { page < self.old.pages }
        ensures ok { OnOk result (Goes (WrotePage page bytes.now) (row_told self.old.begin self.old.pages (D.told self.old.disk.now)) (row_told self.new.begin self.new.pages (D.told self.new.disk.now))) }
        ensures err { OnErr result (Goes (LostPage page) (row_told self.old.begin self.old.pages (D.told self.old.disk.now)) (row_told self.new.begin self.new.pages (D.told self.new.disk.now))) }
        ensures count { self.new.pages ≡ self.old.pages }
        ensures calls { DeviceCalls 2 (D.status self.old.disk.now) (D.status self.new.disk.now) (is_err result) }
        ensures same_reference { self.new.disk.ghost_name ≡ self.old.disk.ghost_name }
        ensures begin { self.new.begin ≡ self.old.begin }
        ensures behind { Goes (StaysBehind self.old.begin self.old.pages) (D.told self.old.disk.now) (D.told self.new.disk.now) }
        ensures keeps { (self.new.disk.ghost_name ≡ self.old.disk.ghost_name) × (self.new.begin ≡ self.old.begin) × (self.new.pages ≡ self.old.pages) × Goes (StaysBehind self.old.begin self.old.pages) (D.told self.old.disk.now) (D.told self.new.disk.now) }
    {
        if let Err(Down) = self.make_room() {
            return Err(Down);
        }
        self.waits += 1;
        if let Err(Down) = put_page(self.disk, self.begin, self.pages, page, bytes) {
            return Err(Down);
        }
        Ok(())
    }

    ghost use Rattle.ktm_row.specs.Lengths.{row_lengths};

    ghost lengths = { λ r. row_lengths r.begin r.pages (D.told r.disk.now) r.stands };

    ghost use Rattle.std.proofs.Common.{refl, ◌∙◌};
    ghost use Rattle.ktm_row.specs.Keeping.{stays_none, stays_then};

    ghost keeps_none = { λ r. (refl, refl, refl, stays_none r.begin r.pages (D.told r.disk.now)) };

    ghost keeps_then = { λ r s t k l. (l.0 ∙ k.0, l.1 ∙ k.1, l.2 ∙ k.2, stays_then r.begin r.pages s.begin s.pages (D.told r.disk.now) (D.told s.disk.now) (D.told t.disk.now) k.1 k.2 k.3 l.3) };
}
