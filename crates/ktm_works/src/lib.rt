//! What is committed, and what a loss of power leaves of it around a call, as a law.
#![tactic(auto)]

ghost use Rattle.ktm_works.specs.Works.{WorksLaw};

use ktm_laws::law_of_lawful_worlds;

/// A loss of power leaves what was committed before a call, or that with what the call commits, which is all that one
/// transaction changed and set.
pub fn law_of_works()
    ensures { WorksLaw }
{
    law_of_lawful_worlds();
}
