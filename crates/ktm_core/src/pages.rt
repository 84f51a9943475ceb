// Pages that are written to a disk.
ghost use Rattle.std.specs.Prelude.{◌≡◌, ℕ, ◌<◌, ◌≤◌, true, false, [], List, All, IfSome, OnErr, OnOk, length};
ghost use Rattle.ktm_core.specs.Pages.{WritingLeaves};
ghost use Rattle.ktm_core.specs.Recording.{WaitingLeaves};
ghost use Rattle.ktm_journal.specs.Image.{IsHeaded, page_count};
ghost use Rattle.ktm_store.specs.Pool.{Shows, is_kept, on_row};

use ktm_base::{Disk, Down};
use ktm_journal::{Journal, law_of_pages};
use ktm_store::{Store, law_of_rows};

/// How many pages are written before a sync.
const AT_ONCE: usize = 64;

// Writes some pages, and then syncs.
fn write_some<D: Disk>(
    disk: &mut D,
    journal: &Journal,
    store: &Store,
    pages: &[u32],
) -> Result<(), Down>
    requires up { (D.status disk.old).is_down ≡ false }
    requires pending { (D.status disk.old).pending ≡ 0 }
    requires headed { IfSome (D.told disk.old) (λ s. IsHeaded journal.now.units journal.now.image journal.now.selector s.seen) }
    requires count { length store.now.marks.held ≡ page_count journal.now.units }
    requires below { All (λ page. page < length store.now.marks.held) pages.now }
    requires kept { All (λ page. is_kept store.now.seen page ≡ true) pages.now }
    requires some { 1 ≤ length pages.now }
    requires few { length pages.now ≤ 64 }
    ensures { (row : List ℕ) → Shows store.now row → WritingLeaves journal.now pages.now row (D.told disk.old) (D.told disk.new) (D.status disk.old) (D.status disk.new) result }
{
    law_of_pages();
    law_of_rows(store);
    for page in pages {
        if let Err(Down) = journal.write_page(disk, *page, store.page(*page)) {
            return Err(Down);
        }
    }
    disk.sync()
}

// Writes pages, with a sync behind each 64 and one behind the last.
fn write_pages<D: Disk>(
    disk: &mut D,
    journal: &Journal,
    store: &Store,
    pages: &[u32],
) -> Result<(), Down>
    requires up { (D.status disk.old).is_down ≡ false }
    requires pending { (D.status disk.old).pending ≡ 0 }
    requires headed { IfSome (D.told disk.old) (λ s. IsHeaded journal.now.units journal.now.image journal.now.selector s.seen) }
    requires count { length store.now.marks.held ≡ page_count journal.now.units }
    requires below { All (λ page. page < length store.now.marks.held) pages.now }
    requires kept { All (λ page. is_kept store.now.seen page ≡ true) pages.now }
    ensures { (row : List ℕ) → Shows store.now row → WritingLeaves journal.now pages.now row (D.told disk.old) (D.told disk.new) (D.status disk.old) (D.status disk.new) result }
{
    law_of_rows(store);
    let mut at = 0;
    while at < pages.len() {
        let end = pages.len().min(at + AT_ONCE);
        if let Err(Down) = write_some(disk, journal, store, &pages[at..end]) {
            return Err(Down);
        }
        at = end;
    }
    Ok(())
}

/// Writes the pages that are wanted, and none is wanted any more. Where none is, no device call is made.
pub(crate) fn write_wanted<D: Disk>(
    disk: &mut D,
    journal: &Journal,
    store: &mut Store,
) -> Result<(), Down>
    requires up { (D.status disk.old).is_down ≡ false }
    requires pending { (D.status disk.old).pending ≡ 0 }
    requires headed { IfSome (D.told disk.old) (λ s. IsHeaded journal.now.units journal.now.image journal.now.selector s.seen) }
    requires count { length store.old.marks.held ≡ page_count journal.now.units }
    ensures leaves { (row : List ℕ) → Shows store.old row → WritingLeaves journal.now store.old.wanted row (D.told disk.old) (D.told disk.new) (D.status disk.old) (D.status disk.new) result }
    ensures ok { OnOk result (store.new ≡ record store.old { wanted = [] }) }
    ensures err { OnErr result (store.new ≡ store.old) }
    ensures few { length store.old.wanted ≤ length store.old.marks.held }
{
    if let Err(Down) = write_pages(disk, journal, store, store.wanted()) {
        return Err(Down);
    }
    store.forget_wanted();
    Ok(())
}

/// Writes all pages that are not stored, and none is wanted any more.
pub(crate) fn write_waiting<D: Disk>(
    disk: &mut D,
    journal: &Journal,
    store: &mut Store,
) -> Result<(), Down>
    requires up { (D.status disk.old).is_down ≡ false }
    requires pending { (D.status disk.old).pending ≡ 0 }
    requires headed { IfSome (D.told disk.old) (λ s. IsHeaded journal.now.units journal.now.image journal.now.selector s.seen) }
    requires count { length store.old.marks.held ≡ page_count journal.now.units }
    requires none { store.old.wanted ≡ [] }
    ensures leaves { (row : List ℕ) → Shows store.old row
        → WaitingLeaves journal.now (on_row store.old row) (on_row store.new row) (D.told disk.old) (D.told disk.new) (D.status disk.old) (D.status disk.new) result }
    ensures seen { store.new.seen ≡ store.old.seen }
{
    store.want_all();
    write_wanted(disk, journal, store)
}
