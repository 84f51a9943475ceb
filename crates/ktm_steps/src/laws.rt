// Laws of steps and of rows, each the contract of a function that does nothing.
ghost use Rattle.ktm_steps.specs.Laws.{EventsAheadLaw, RowsLaw};
ghost use Rattle.ktm_steps.specs.Outcomes.{OutcomeLaw};
ghost use Rattle.ktm_steps.specs.Fading.{FadingLaw};

/// An answer counts first, and then the transaction goes on by what is seen of it then.
pub fn law_of_rows()
    ensures { RowsLaw }
{}

/// What steps record is known before anything is carried out.
pub fn law_of_events_ahead()
    ensures { EventsAheadLaw }
{}

/// No enlistment comes back to life by steps.
pub fn law_of_fading()
    ensures { FadingLaw }
{}

/// What is told of an outcome is so, and an outcome that is known stays.
pub fn law_of_outcomes()
    ensures { OutcomeLaw }
{}
