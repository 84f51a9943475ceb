// What writes of bytes, and puts of the units that have them, come to alike.
ghost use Rattle.ktm_units.specs.Units.{UnitsLaw};

use ktm_alike::law_of_alike_presents;
use ktm_replaced::law_of_replaced_files;

/// Where contents are places on a disk, and pages hold what a write makes of the units that it touches, putting these units comes to
/// what the write of the bytes comes to. So it is where a file becomes longer. Every other command comes to the same over places as
/// over the bytes there.
pub fn law_of_units()
    ensures { UnitsLaw }
{
    law_of_alike_presents();
    law_of_replaced_files();
}
