// What one enlistment counts for.
ghost use Rattle.std.specs.Prelude.{◌≡◌};
ghost use Rattle.ktm_enlist.specs.Standing.{standing_of};

use ktm_phase::Enlistment;

/// What an enlistment counts for in its transaction.
#[derive(Clone, Copy, PartialEq)]
pub(crate) struct Standing {
    pub takes_part: bool,
    pub asks: bool,
    pub in_one_phase: bool,
    pub owes: bool,
    pub is_unfinished: bool,
    /// Whether it is live as long as the transaction has not ended.
    pub is_live: bool,
}

impl Standing {
    /// That of no enlistment.
    pub(crate) const NONE: Standing = Standing {
        takes_part: false,
        asks: false,
        in_one_phase: false,
        owes: false,
        is_unfinished: false,
        is_live: false,
    };
}

/// What the enlistment counts for.
pub(crate) fn standing_of(e: &Enlistment) -> Standing
    ensures { result ≡ standing_of e.now }
{
    let share = e.share();
    let is_superior = e.is_superior();
    let takes_part = !is_superior && !e.is_read_only;
    Standing {
        takes_part,
        asks: takes_part && share.asks,
        in_one_phase: takes_part && share.allows_one_phase,
        owes: takes_part && share.owes,
        is_unfinished: takes_part && !e.is_finished,
        is_live: is_superior || !e.is_read_only && !e.is_finished,
    }
}
