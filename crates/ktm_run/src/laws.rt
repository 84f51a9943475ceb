// What is so of every run, as the contract of a function that does nothing.
ghost use Rattle.ktm_run.specs.Lawful.{RunLaw};

use ktm_laws::{law_of_lawful_worlds, law_of_one_outcome};

// Each world that a run comes to is lawful, and no transaction is told two outcomes.
pub fn law_of_runs()
    ensures { RunLaw }
{
    law_of_lawful_worlds();
    law_of_one_outcome();
}
