// Laws of what a machine records.
ghost use Rattle.ktm_records.specs.FileCallsMade.{FileCallsLaw};
ghost use Rattle.ktm_records.specs.MadeManagers.{MadeManagersLaw};
ghost use Rattle.ktm_records.specs.RecordedFacts.{RecordedFactsLaw};
ghost use Rattle.ktm_records.specs.Recordings.{RecordingsLaw};
ghost use Rattle.ktm_records.specs.Rollbacks.{RollbacksLaw};
ghost use Rattle.ktm_records.specs.Spelling.{SpellingLaw};

use ktm_courses::law_of_named_objects;
use txf_laws::{law_of_forms, law_of_lists};

/// What undecided transactions own, and what a plain call changes, applies to what was recorded.
pub fn law_of_recordings()
    ensures { RecordingsLaw }
{}

/// What the rollback of an undecided transaction records applies to what was recorded.
pub fn law_of_rollbacks()
    ensures { RollbacksLaw }
{}

/// What a resource manager that is made records applies to what was recorded.
pub fn law_of_made_managers()
    ensures { MadeManagersLaw }
{}

/// What a machine records applies, but for the limits.
pub fn law_of_recorded_facts()
    ensures { RecordedFactsLaw }
{
    law_of_lists();
    law_of_forms();
}

/// A call on files that is not refused changes what its caller sees, leaves what others hold, and opens what may be opened.
pub fn law_of_file_calls()
    ensures { FileCallsLaw }
{
    law_of_lists();
    law_of_forms();
}

/// What a machine records can be spelled.
pub fn law_of_spelling()
    ensures { SpellingLaw }
{
    law_of_named_objects();
    law_of_recorded_facts();
}
