// Laws of the calls on enlistments, each the contract of a function that does nothing.
ghost use Rattle.ktm_phase.specs.Calls.{CallsLaw};
ghost use Rattle.ktm_phase.specs.Coming.{ComingLaw};

/// What is allowed may come then: nothing takes back an outcome that is known.
pub fn law_of_coming()
    ensures { ComingLaw }
{}

/// Each call on an enlistment is refused by the tests of replies, and else leads its transaction by a row.
pub fn law_of_calls()
    ensures { CallsLaw }
{}
