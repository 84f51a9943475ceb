// The units that a write touches, on pages that were free.
ghost use Rattle.std.specs.Prelude.{◌≡◌, ℕ, ◌*◌, ◌+◌, ◌-◌, ◌/◌, ◌<◌, ◌≤◌, ◌^◌, ◌++◌, min, replicate, length, IfOk, OnErr, OnOk, is_err};
ghost use Rattle.ktm_base.specs.Disk.{DeviceCalls};
ghost use Rattle.ktm_base.specs.Told.{Goes};
ghost use Rattle.ktm_page.specs.Space.{Took, free_below};
ghost use Rattle.ktm_extent.specs.Extent.{AreBelow, AreOut, contents};
ghost use Rattle.ktm_extent.specs.Calls.{OnlyFree, most_calls};
ghost use Rattle.ktm_extent.specs.Units.{AreTaken, AreWritten, WroteUnit, first_unit, read_calls, target};

use crate::Extent;
use crate::holders::give_all;
use crate::unit::write_unit;
use ktm_base::{Down, NoMemory};
use ktm_page::{PageIo, PageSpace};
use std::alloc::Global;

/// A copy of a list of pages, with zeros behind it up to a length.
pub(crate) fn longer_copy(alloc: Global, list: &[u32], len: usize) -> Result<Vec<u32>, NoMemory>
    requires { length list.now ≤ len }
    ensures { IfOk result (λ copy. copy.items ≡ list.now ++ replicate (len - length list.now) 0) }
{
    let mut copy = Vec::with_capacity(alloc, len)?;
    copy.extend_from_slice(list)?;
    copy.resize(len, 0)?;
    Ok(copy)
}

// Takes a page, and writes on it what a unit holds where bytes are put over the contents.
fn take_unit<P: PageIo, G: PageSpace>(
    old: &Extent,
    io: &mut P,
    pages: &mut G,
    unit: u64,
    at: u64,
    bytes: &[u8],
) -> Result<u32, Down>
    requires below { AreBelow (P.count io.old) old.now }
    requires row { G.count pages.old ≤ P.count io.old }
    requires free { 0 < free_below (G.holders pages.old) (G.count pages.old) }
    requires begins { unit * 4096 < at + length bytes.now }
    requires ends { at + length bytes.now < 2 ^ 64 }
    ensures took { IfOk result (λ page. Took (G.count pages.old) (G.holders pages.old) page (G.holders pages.new)) }
    ensures wrote { IfOk result (λ page. Goes (WroteUnit (target old.now at bytes.now) unit page) (P.told io.old) (P.told io.new)) }
    ensures gave { OnErr result ((page : ℕ) → G.holders pages.new page ≡ G.holders pages.old page) }
    ensures lost { OnErr result (Goes (OnlyFree (G.count pages.old) (G.holders pages.old)) (P.told io.old) (P.told io.new)) }
    ensures calls { DeviceCalls (2 + read_calls old.now.size at (at + length bytes.now) (unit * 4096)) (P.status io.old) (P.status io.new) (is_err result) }
    ensures row { P.count io.new ≡ P.count io.old }
    ensures keeps { P.keeps io.old io.new }
    ensures count { G.count pages.new ≡ G.count pages.old }
{
    let Some(page) = pages.take() else {
        unreachable!();
    };
    if let Err(Down) = write_unit(old, io, page, unit, at, bytes) {
        pages.give(page);
        return Err(Down);
    }
    Ok(page)
}

/// Takes a page for each unit that bytes touch where they are put over the contents, and writes it. After a fault none is taken.
pub(crate) fn take_units<P: PageIo, G: PageSpace>(
    old: &Extent,
    io: &mut P,
    pages: &mut G,
    at: u64,
    bytes: &[u8],
    taken: &mut [u32],
) -> Result<(), Down>
    requires out { AreOut (G.holders pages.old) old.now }
    requires below { AreBelow (G.count pages.old) old.now }
    requires row { G.count pages.old ≤ P.count io.old }
    requires free { length taken.old ≤ free_below (G.holders pages.old) (G.count pages.old) }
    requires some { min old.now.size at < at + length bytes.now }
    requires ends { at + length bytes.now < 2 ^ 64 }
    requires units { first_unit old.now.size at + length taken.old ≡ (at + length bytes.now - 1) / 4096 + 1 }
    ensures took { OnOk result (AreTaken (G.count pages.old) taken.new (G.holders pages.old) (G.holders pages.new)) }
    ensures wrote { OnOk result (Goes (AreWritten (target old.now at bytes.now) (first_unit old.now.size at) taken.new (G.count pages.old) (G.holders pages.old)) (P.told io.old) (P.told io.new)) }
    ensures gave { OnErr result ((page : ℕ) → G.holders pages.new page ≡ G.holders pages.old page) }
    ensures lost { OnErr result (Goes (OnlyFree (G.count pages.old) (G.holders pages.old)) (P.told io.old) (P.told io.new)) }
    ensures calls { DeviceCalls (most_calls (length taken.old)) (P.status io.old) (P.status io.new) (is_err result) }
    ensures row { P.count io.new ≡ P.count io.old }
    ensures keeps { P.keeps io.old io.new }
    ensures count { G.count pages.new ≡ G.count pages.old }
{
    let first = old.first_unit(at);
    for i in 0..taken.len() {
        match take_unit(old, io, pages, first + i as u64, at, bytes) {
            Ok(page) => taken[i] = page,
            Err(Down) => {
                give_all(pages, &taken[..i]);
                return Err(Down);
            }
        }
    }
    Ok(())
}
