// Laws of when a machine stands for a world.
ghost use Rattle.ktm_kernel.specs.Stands.{LeftLaw, PowerLaw, FoundLaw};

use ktm_journal::law_of_pages;
use ktm_paged::law_of_paged_records;
use ktm_standing::law_of_standing;

/// Of a disk on which a machine stands for a world, each image that a loss of power may leave stands for the state of a
/// possible log.
pub fn law_of_what_is_left()
    ensures { LeftLaw }
{
    law_of_pages();
    law_of_paged_records();
}

/// What the disk of a machine that is down holds once it has the power back.
pub fn law_of_power()
    ensures { PowerLaw }
{
    law_of_standing();
}

/// What a loss of power leaves where a machine that is down has its power back.
pub fn law_of_what_is_found()
    ensures { FoundLaw }
{}
