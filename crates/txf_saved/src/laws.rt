// Laws of files as a snapshot has them.
ghost use Rattle.txf_saved.specs.Saved.{LeastBehind};

/// The number of the next node that is read with files is the least that is behind the root and behind all of them.
pub fn law_of_next()
    ensures { LeastBehind }
{}
