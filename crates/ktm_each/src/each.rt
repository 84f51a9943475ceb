// What holds of each byte of each content.
ghost use Rattle.std.specs.Prelude.{ℕ};
ghost use Rattle.ktm_each.specs.Laws.{EachLaw};

/// What may hold of a byte of a content, by the number of its file, its index there, and the byte itself.
pub trait OfBytes {
    ghost holds: { ℕ → ℕ → ℕ → Type 0 };
}

/// What holds of zeros, and of each byte that is put, goes on to hold of each byte of each content.
pub fn law_of_each_byte<P: OfBytes>()
    ensures { EachLaw P.holds }
{}
