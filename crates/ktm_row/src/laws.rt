// Laws over the definitions, each the contract of a function that does nothing.
ghost use Rattle.ktm_row.specs.Laws.{LeftLaw, WholeLaw};

/// What a loss of power may leave of the pages, and of what stands beside them.
pub fn law_of_what_is_left()
    ensures { LeftLaw }
{}

/// What the pages, and what stands behind them, say of the disk.
pub fn law_of_the_whole()
    ensures { WholeLaw }
{}
