// Laws of worlds.
ghost use Rattle.ktm_laws.specs.Notes.{NotesLaw};
ghost use Rattle.ktm_laws.specs.ReservedFiles.{ReservedFilesLaw};
ghost use Rattle.ktm_laws.specs.Running.{LawfulWorldsLaw, OneOutcomeLaw};
ghost use Rattle.ktm_records.specs.SoundWorlds.{SoundWorldsLaw};

use ktm_courses::{law_of_courses, law_of_kept_outcomes, law_of_named_objects};
use ktm_limits::law_of_limits;
use ktm_owned::{law_of_files_kept, law_of_own_keys};
use ktm_records::{law_of_agreement, law_of_file_calls, law_of_recorded_facts, law_of_spelling};
use ktm_world::{law_of_first_opens, law_of_refusals, law_of_step};
use txf_laws::{law_of_forms, law_of_good_states, law_of_lists, law_of_own_groups};

/// Every world of a run is sound, where it began with a restart of a good state.
pub fn law_of_sound_worlds()
    ensures { SoundWorldsLaw }
{
    law_of_step();
    law_of_first_opens();
    law_of_lists();
    law_of_forms();
    law_of_courses();
    law_of_own_keys();
    law_of_files_kept();
}

/// A notification that a transaction has committed or has rolled back waits only where that is so.
pub fn law_of_notes()
    ensures { NotesLaw }
{
    law_of_kept_outcomes();
}

/// Every world of a run is lawful.
pub fn law_of_lawful_worlds()
    ensures { LawfulWorldsLaw }
{
    law_of_step();
    law_of_first_opens();
    law_of_lists();
    law_of_forms();
    law_of_good_states();
    law_of_own_groups();
    law_of_named_objects();
    law_of_sound_worlds();
    law_of_own_keys();
    law_of_agreement();
    law_of_recorded_facts();
    law_of_spelling();
    law_of_limits();
    law_of_notes();
}

/// No transaction is told two outcomes.
pub fn law_of_one_outcome()
    ensures { OneOutcomeLaw }
{
    law_of_refusals();
    law_of_courses();
    law_of_kept_outcomes();
    law_of_lawful_worlds();
}

/// What an undecided transaction did to the files is reserved for it, in a machine that is kept, as it is in every world of a run:
/// whatever others call, whichever handles and processes end, however much time passes, and where the power goes.
pub fn law_of_reserved_files()
    ensures { ReservedFilesLaw }
{
    law_of_lists();
    law_of_forms();
    law_of_file_calls();
}
