// Holders of the pages of a list.
ghost use Rattle.std.specs.Prelude.{◌≡◌, ℕ, ◌+◌, ◌<◌, ◌≤◌, ◌^◌};
ghost use Rattle.ktm_extent.specs.Extent.{uses_in};

use ktm_page::PageSpace;

/// Takes a holder away from each page, as often as it stands in the list.
pub(crate) fn give_all<G: PageSpace>(pages: &mut G, list: &[u32])
    requires below { (page : ℕ) → 0 < uses_in list.now page → page < G.count pages.old }
    requires out { (page : ℕ) → uses_in list.now page ≤ G.holders pages.old page }
    ensures gave { (page : ℕ) → G.holders pages.new page + uses_in list.now page ≡ G.holders pages.old page }
    ensures count { G.count pages.new ≡ G.count pages.old }
{
    for page in list {
        pages.give(*page);
    }
}

/// Adds a holder to each page, as often as it stands in the list.
pub(crate) fn share_all<G: PageSpace>(pages: &mut G, list: &[u32])
    requires below { (page : ℕ) → 0 < uses_in list.now page → page < G.count pages.old }
    requires out { (page : ℕ) → 0 < uses_in list.now page → 0 < G.holders pages.old page }
    requires room { (page : ℕ) → G.holders pages.old page + uses_in list.now page < 2 ^ 32 }
    ensures shared { (page : ℕ) → G.holders pages.new page ≡ G.holders pages.old page + uses_in list.now page }
    ensures count { G.count pages.new ≡ G.count pages.old }
{
    for page in list {
        pages.share(*page);
    }
}
