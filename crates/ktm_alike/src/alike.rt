// What of commands does not depend on the bytes of files.
ghost use Rattle.ktm_alike.specs.Laws.{AlikeLaw};

/// With every byte of every content replaced by another one, what is so now takes the same commands and comes to the same.
pub fn law_of_alike_presents()
    ensures { AlikeLaw }
{}
