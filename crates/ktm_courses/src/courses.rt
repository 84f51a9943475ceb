// Laws of transactions with their enlistments, resource managers, notifications and handles.
ghost use Rattle.ktm_courses.specs.NamedObjects.{NamedLaw};
ghost use Rattle.ktm_courses.specs.Outcomes.{OutcomesLaw};
ghost use Rattle.ktm_courses.specs.SoundCourses.{CoursesLaw};

use ktm_world::law_of_step;

/// Transactions and all that takes part in them stay sound, by whatever a machine is asked, and where it falls.
pub fn law_of_courses()
    ensures { CoursesLaw }
{
    law_of_step();
}

/// An outcome that is known never changes, and no transaction is lost before a restart.
pub fn law_of_kept_outcomes()
    ensures { OutcomesLaw }
{}

/// What a machine records names Ids of objects, which the grammar can spell.
pub fn law_of_named_objects()
    ensures { NamedLaw }
{}
