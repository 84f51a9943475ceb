// What was recorded agrees with what is so now.
ghost use Rattle.ktm_records.specs.Agreement.{AgreeingLaw};

use ktm_world::law_of_step;

/// What was recorded goes on to agree with what is so now, whatever is called, however much time passes, and from a restart on.
pub fn law_of_agreement()
    ensures { AgreeingLaw }
{
    law_of_step();
}
