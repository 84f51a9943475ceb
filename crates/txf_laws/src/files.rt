// Laws of what transactions own and hold of the files.
ghost use Rattle.txf_laws.specs.FirstOpening.{FirstOpeningLaw};
ghost use Rattle.txf_laws.specs.Openings.{OpeningLaw};
ghost use Rattle.txf_laws.specs.OwnChange.{OwnChangeLaw};
ghost use Rattle.txf_laws.specs.PlainChange.{PlainChangeLaw};
ghost use Rattle.txf_laws.specs.Reservations.{ReservationsLaw};

use crate::{law_of_forms, law_of_lists};

/// What a transaction holds no other one changes, and no plain call.
pub fn law_of_reservations()
    ensures { ReservationsLaw }
{
    law_of_lists();
}

/// A transaction may make, put, cut, move and drop what nobody else holds.
pub fn law_of_own_changes()
    ensures { OwnChangeLaw }
{}

/// A file may be opened where what is asked for is nobody else's.
pub fn law_of_openings()
    ensures { OpeningLaw }
{}

/// A transaction may open a committed file of which it knows nothing yet.
pub fn law_of_first_openings()
    ensures { FirstOpeningLaw }
{}

/// A plain call may change what no undecided transaction holds, and a plain handle may write its file.
pub fn law_of_plain_changes()
    ensures { PlainChangeLaw }
{
    law_of_forms();
    law_of_lists();
}
