// What a change means that is recorded with pages.
ghost use Rattle.std.specs.Prelude.{◌≡◌, ◌*◌, ◌≤◌, ◌==◌, Some, None, length, if◌then◌else◌};
ghost use Rattle.ktm_world.specs.declared.change.Change.TheVariants.{Put, Cut};
ghost use Rattle.ktm_world.specs.declared.change.Contents.TheVariants.{Paged};
ghost use Rattle.ktm_paged.specs.Meaning.{meant_if_paged, pages_in, put_on, units_from};

use ktm_base::{PageList, UNIT_BYTES};
use ktm_content::{Content, Placed};
use ktm_world::{Change, Contents};

// The bytes on pages are put from the begin of a unit up to an end, if there is a page for each unit.
fn put_on_pages(node: u64, unit: u64, end: u64, pages: PageList) -> Option<Change>
    requires { unit * 4096 ≤ end }
    ensures { result ≡ (if length pages == units_from unit end then Some (put_on node unit end pages) else None) }
{
    if pages.len() as u64 != end.div_ceil(UNIT_BYTES) - unit {
        return None;
    }
    let offset = unit * UNIT_BYTES;
    let placed = Placed::new(Content::on_pages(end - offset, pages));
    Some(Change::Put {
        node,
        offset,
        contents: Contents::Whole(placed),
    })
}

// Bytes are put, up to an end, into a file of so many bytes.
fn put_meant(size: u64, node: u64, offset: u64, len: u32, pages: PageList) -> Option<Change>
    ensures { result ≡ meant_if_paged size (Put node offset (Paged len pages)) }
{
    let end = offset.checked_add(len as u64)?;
    let touched = end.div_ceil(UNIT_BYTES).saturating_mul(UNIT_BYTES);
    let unit = size.min(offset) / UNIT_BYTES;
    put_on_pages(node, unit, size.max(end).min(touched), pages)
}

// A file of so many bytes has this size then.
fn cut_meant(size: u64, node: u64, end: u64, pages: PageList) -> Option<Change>
    ensures { result ≡ meant_if_paged size (Cut node end pages) }
{
    if size < end {
        return put_on_pages(node, size / UNIT_BYTES, end, pages);
    }
    if !pages.is_empty() {
        return None;
    }
    Some(Change::Cut {
        node,
        size: end,
        pages,
    })
}

/// What a change means that is recorded with pages, of a file of so many bytes. Where bytes are put, or the file becomes longer, the
/// places on the pages are put, from the begin of the first unit that is touched. No page number is copied. There is none exactly
/// where contents are not on pages, there is not one page for each unit that is touched, or the bytes end behind every size.
#[inline(always)]
pub fn meant(size: u64, change: Change) -> Option<Change>
    ensures { result ≡ meant_if_paged size change }
{
    match change {
        Change::Put {
            node,
            offset,
            contents: Contents::Paged { len, pages },
        } => put_meant(size, node, offset, len, pages),
        Change::Put { .. } => None,
        Change::Cut {
            node,
            size: end,
            pages,
        } => cut_meant(size, node, end, pages),
        change => Some(change),
    }
}

/// The pages that a change names.
pub fn pages_of(change: &Change) -> &[u32]
    ensures { result.now ≡ pages_in change.now }
{
    match change {
        Change::Put {
            contents: Contents::Paged { pages, .. },
            ..
        }
        | Change::Cut { pages, .. } => pages.as_slice(),
        _ => &[],
    }
}
