// What is kept of the enlistments of one transaction.
ghost use Rattle.std.specs.Prelude.{◌≡◌};
ghost use Rattle.ktm_enlist.specs.Groups.{fresh, joined, recounted, regrouped, superior_with, MayRecount, MayRegroup};
ghost use Rattle.ktm_enlist.specs.Standing.{nothing, standing_of};

use crate::counts::Counts;
use crate::standing::{Standing, standing_of};
use ktm_base::Id;
use ktm_phase::Enlistment;

/// What is kept of a transaction that has enlistments.
#[derive(Clone, Copy)]
pub(crate) struct Group {
    pub transaction: Id,
    pub counts: Counts,
    pub unfinished: u32,
    /// How many are live as long as the transaction has not ended.
    pub live: u32,
    /// The place of its superior.
    pub superior: Option<u32>,
    /// The places of its first and of its last enlistment.
    pub first: u32,
    pub last: u32,
}

// How many count, where one that counted so counts so from now on.
fn recounted(count: u32, was: bool, is: bool) -> u32
    requires { MayRecount count was is }
    ensures { result ≡ recounted count was is }
{
    count - was as u32 + is as u32
}

// The place of the superior, once one more enlistment stands at this place.
fn superior_with(superior: Option<u32>, e: &Enlistment, place: u32) -> Option<u32>
    ensures { result ≡ superior_with superior e.now place }
{
    if superior.is_none() && e.is_superior() {
        Some(place)
    } else {
        superior
    }
}

impl Group {
    /// That of a transaction whose first enlistment will stand at this place.
    pub(crate) fn new(transaction: Id, place: u32) -> Group
        ensures { result ≡ fresh transaction place }
    {
        Group {
            transaction,
            counts: Counts::NONE,
            unfinished: 0,
            live: 0,
            superior: None,
            first: place,
            last: place,
        }
    }

    /// With one enlistment that counted so, and counts so from now on.
    pub(crate) fn regrouped(self, was: Standing, is: Standing) -> Group
        requires { MayRegroup self was is }
        ensures { result ≡ regrouped was is self }
    {
        Group {
            counts: Counts {
                enlistments: recounted(self.counts.enlistments, was.takes_part, is.takes_part),
                asking: recounted(self.counts.asking, was.asks, is.asks),
                in_one_phase: recounted(
                    self.counts.in_one_phase,
                    was.in_one_phase,
                    is.in_one_phase,
                ),
                owing: recounted(self.counts.owing, was.owes, is.owes),
            },
            unfinished: recounted(self.unfinished, was.is_unfinished, is.is_unfinished),
            live: recounted(self.live, was.is_live, is.is_live),
            ..self
        }
    }

    /// With one enlistment more, at this place.
    pub(crate) fn joined(self, e: &Enlistment, place: u32) -> Group
        requires { MayRegroup self nothing (standing_of e.now) }
        ensures { result ≡ joined e.now place self }
    {
        Group {
            superior: superior_with(self.superior, e, place),
            last: place,
            ..self.regrouped(Standing::NONE, standing_of(e))
        }
    }
}
