// Which pages are out.
ghost use Rattle.std.specs.Prelude.{◌≡◌, ℕ, ◌+◌, ◌<◌, ◌^◌, None, IfSome};
ghost use Rattle.ktm_page.specs.Space.{Gave, Shared, Took, free_below};

/// Which of a row's pages are out, each with its number of holders. A page without a holder is free.
pub trait PageSpace {
    /// How many pages there are.
    ghost count: { Self → ℕ };

    /// How many holders a page has.
    ghost holders: { Self → ℕ → ℕ };

    /// A page that was free, with one holder; None where no page is free.
    fn take(&mut self) -> Option<u32>
        ensures some { IfSome result (λ page. Took (count self.old) (holders self.old) page (holders self.new)) }
        ensures none { result ≡ None → (free_below (holders self.old) (count self.old) ≡ 0) × (self.new ≡ self.old) }
        ensures count { count self.new ≡ count self.old };

    /// Adds a holder.
    fn share(&mut self, page: u32)
        requires within { page < count self.old }
        requires out { 0 < holders self.old page }
        requires room { holders self.old page + 1 < 2 ^ 32 }
        ensures shared { Shared (holders self.old) page (holders self.new) }
        ensures count { count self.new ≡ count self.old };

    /// Takes a holder away. A page that has none then is free.
    fn give(&mut self, page: u32)
        requires within { page < count self.old }
        requires out { 0 < holders self.old page }
        ensures gave { Gave (holders self.old) page (holders self.new) }
        ensures count { count self.new ≡ count self.old };

    /// How many pages are free.
    fn free(&self) -> u32
        ensures { result ≡ free_below (holders self.now) (count self.now) };
}
