// No notification wants room.
ghost use Rattle.ktm_slots.specs.Slots.{SlotsLaw};

/// Five slots for each enlistment that is made, and one for each notification of a recovery, are enough for all that is sent.
pub fn law_of_slots()
    ensures { SlotsLaw }
{}
