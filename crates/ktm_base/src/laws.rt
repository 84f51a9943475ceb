// Laws over the definitions, each the contract of a function that does nothing.
ghost use Rattle.ktm_base.specs.Laws.{SeenLaw, WriteLaw, WriteRefusedLaw, SafeLaw, SyncLaw, GrowthLaw, GrowthRefusedLaw, TwoWritesLaw, PowerLaw, CallsLaw};

/// What a read sees may be left.
pub fn law_of_what_is_seen()
    ensures { SeenLaw }
{}

/// What a write does to the images that may be left.
pub fn law_of_write()
    ensures { WriteLaw }
{}

/// What a refused write does to them.
pub fn law_of_write_refused()
    ensures { WriteRefusedLaw }
{}

/// What may be left where nothing is dirty.
pub fn law_of_what_is_safe()
    ensures { SafeLaw }
{}

/// What a sync does to the images that may be left.
pub fn law_of_sync()
    ensures { SyncLaw }
{}

/// What a growth does to them.
pub fn law_of_ensure()
    ensures { GrowthLaw }
{}

/// What a refused growth does to them.
pub fn law_of_ensure_refused()
    ensures { GrowthRefusedLaw }
{}

/// What a second write to a range does.
pub fn law_of_two_writes()
    ensures { TwoWritesLaw }
{}

/// What giving the power back does to the images that may be left.
pub fn law_of_power()
    ensures { PowerLaw }
{}

/// What device calls in a row do to the counts.
pub fn law_of_calls()
    ensures { CallsLaw }
{}
