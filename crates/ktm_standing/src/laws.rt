// Laws of worlds that stand, each the contract of a function that does nothing.
ghost use Rattle.ktm_standing.specs.Laws.{EffectsLaw, TimeoutLaw, CoursesLaw, NamedLaw, GuidLaw, DecidedLaw, SpelledLaw, KeptLaw, FilesLaw, StandingLaw, FreshLaw};

use ktm_laws::{law_of_lawful_worlds, law_of_limits, law_of_notes, law_of_sound_worlds};
use ktm_records::{law_of_agreement, law_of_file_calls, law_of_spelling};
use ktm_world::law_of_step;
use txf_laws::{
    law_of_forms, law_of_good_states, law_of_lists, law_of_own_groups, law_of_reservations,
};

/// What an outcome makes of what is so now.
pub fn law_of_effects()
    ensures { EffectsLaw }
{}

/// Time rolls back the transactions that are due, each for itself.
pub fn law_of_timeouts()
    ensures { TimeoutLaw }
{}

/// A transaction goes on by steps, whoever calls.
pub fn law_of_courses()
    ensures { CoursesLaw }
{}

/// A label names an object by its Id.
pub fn law_of_named()
    ensures { NamedLaw }
{}

/// A GUID leads to an object by its Id.
pub fn law_of_guids()
    ensures { GuidLaw }
{}

/// What holds of every outcome of a command.
pub fn law_of_decided()
    ensures { DecidedLaw }
{}

/// What a machine that stands records has bytes.
pub fn law_of_spelled()
    ensures { SpelledLaw }
{
    law_of_spelling();
}

/// What is so in a machine that stands is kept.
pub fn law_of_kept()
    ensures { KeptLaw }
{}

/// What calls on files and commits come to can be made by a machine that stands.
pub fn law_of_files()
    ensures { FilesLaw }
{
    law_of_step();
    law_of_lawful_worlds();
    law_of_spelling();
    law_of_reservations();
    law_of_lists();
    law_of_forms();
    law_of_file_calls();
    law_of_effects();
}

/// A machine keeps what it keeps, whatever it does.
pub fn law_of_standing()
    ensures { StandingLaw }
{
    law_of_step();
    law_of_lawful_worlds();
    law_of_spelling();
}

/// What is so in the world that a restart opens.
pub fn law_of_fresh()
    ensures { FreshLaw }
{
    law_of_good_states();
    law_of_own_groups();
    law_of_sound_worlds();
    law_of_agreement();
    law_of_limits();
    law_of_notes();
    law_of_spelling();
}
