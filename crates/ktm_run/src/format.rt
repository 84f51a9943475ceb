// The form that makes an image new.
ghost use Rattle.std.specs.Prelude.{◌≡◌, ◌≤◌, ℕ, List, Option};
ghost use Rattle.ktm_base.specs.declared.limits.TheConstants.{LEAST_UNITS, MOST_UNITS};
ghost use Rattle.ktm_run.specs.Early.{outside};
ghost use Rattle.ktm_run.specs.Formatted.{FormatLeaves};

use crate::status::Status;
use ktm_base::{Down, PowerDisk};
use ktm_journal::Journal;
use ktm_kernel::law_of_new_images;

/// The number of an image that is made new.
const IMAGE: u16 = 1;

/// Makes the disk a new image of so many units, whatever it held.
pub fn format_image<D: PowerDisk>(disk: &mut D, units: u32) -> Status
    requires least { LEAST_UNITS ≤ units }
    requires most { units ≤ MOST_UNITS }
    requires pending { (D.status disk.old).pending ≡ 0 }
    ensures { (left taken : Option (List ℕ)) → FormatLeaves result units (outside left taken (D.told disk.old) (D.status disk.old)) (outside left taken (D.told disk.new) (D.status disk.new)) }
{
    law_of_new_images();
    match Journal::format(disk, units, IMAGE) {
        Ok(()) => Status::Done,
        Err(Down) => Status::DiskFault,
    }
}
