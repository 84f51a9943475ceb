// The pages of contents.
ghost use Rattle.std.specs.Prelude.{◌≡◌, ◌↔◌, IsTrue, nat_lt};
ghost use Rattle.std.specs.List.{list_all};
ghost use Rattle.ktm_owners.specs.Owners.{has_unit};
ghost use Rattle.ktm_paged.specs.Paged.{LiesBelow};

use ktm_content::PlacedRef;

/// Does this unit of the contents lie on this page.
pub fn has_unit(contents: PlacedRef<'_>, unit: u64, page: u32) -> bool
    ensures { result ≡ has_unit contents.entry unit page }
{
    match contents.pages().get(unit as usize) {
        Some(there) => *there == page,
        None => false,
    }
}

/// Are pages among the first so many.
pub fn are_below(count: usize, pages: &[u32]) -> bool
    ensures { result ≡ list_all (λ page. nat_lt page count) pages.now }
{
    pages.iter().all(|page| (*page as usize) < count)
}

/// Do contents lie on some of the first so many pages.
pub fn lies_below(count: usize, contents: PlacedRef<'_>) -> bool
    ensures { IsTrue result ↔ LiesBelow count contents.entry }
{
    are_below(count, contents.pages())
}
