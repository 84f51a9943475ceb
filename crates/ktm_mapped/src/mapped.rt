// What does not depend on the bytes of files.
ghost use Rattle.ktm_mapped.specs.Laws.{MappedLaw};

/// With every byte of every content replaced by another one, a durable state takes the same events and comes to the same.
pub fn law_of_mapped_states()
    ensures { MappedLaw }
{}
