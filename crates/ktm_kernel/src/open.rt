// The machine of an image.
ghost use Rattle.std.specs.Prelude.{◌≡◌, ◌⊎◌, ◌+◌, ◌*◌, ◌<◌, ◌≤◌, [], length, false, is_err, OnOk, OnErr, IsSomeAnd, IsTrue};
ghost use Rattle.ktm_base.specs.declared.limits.TheConstants.{NEW_UNITS};
ghost use Rattle.ktm_base.specs.Disk.{DeviceCalls};
ghost use Rattle.ktm_base.specs.Told.{Goes};
ghost use Rattle.ktm_kernel.specs.Opened.{OpenLeaves};
ghost use Rattle.ktm_kernel.specs.Opening.{Prepared, open_fault_of};

use crate::fault::OpenFault;
use crate::{Buffers, Kernel, RestartFault, Restarted};
use ktm_base::{Disk, Down, NEW_UNITS};
use ktm_core::{law_of_bad_images, law_of_new_images, law_of_states};
use ktm_journal::Journal;
use std::alloc::Global;

/// The number of an image that an opening makes itself.
const IMAGE: u16 = 1;

// Makes a disk without a byte a new image.
fn prepare<D: Disk>(disk: &mut D) -> Result<(), Down>
    requires { (D.status disk.old).pending ≡ 0 }
    ensures ok { OnOk result (Goes Prepared (D.told disk.old) (D.told disk.new)) }
    ensures err { OnErr result (Goes (λ old new. (old.seen ≡ []) ⊎ (new ≡ old)) (D.told disk.old) (D.told disk.new)) }
    ensures pending { OnOk result ((D.status disk.new).pending ≡ 0) }
    ensures up { OnOk result ((D.status disk.new).is_down ≡ false) }
    ensures calls { DeviceCalls 9 (D.status disk.old) (D.status disk.new) (is_err result) }
{
    law_of_new_images();
    let Ok(len) = disk.len() else {
        return Err(Down);
    };
    if len == 0 {
        if let Err(Down) = Journal::format(disk, NEW_UNITS, IMAGE) {
            return Err(Down);
        }
    }
    Ok(())
}

// Why no machine was started, by what the kernel says.
fn open_fault(fault: RestartFault) -> OpenFault
    ensures { result ≡ open_fault_of fault }
{
    match fault {
        RestartFault::Down => OpenFault::Down,
        RestartFault::Bad(offset) => OpenFault::BadImage(offset),
        RestartFault::Worn => OpenFault::Worn,
        RestartFault::NoMemory => OpenFault::NoMemory,
    }
}

/// Starts the machine of the image. A disk without a byte becomes a new one.
pub fn open_kernel<D: Disk>(alloc: Global, disk: &mut D) -> Result<Restarted, OpenFault>
    requires { (D.status disk.old).pending ≡ 0 }
    ensures pending { OnErr result (IsTrue (D.status disk.new).is_down ⊎ ((D.status disk.new).pending ≡ 0)) }
    ensures leaves { OpenLeaves (D.told disk.old) (D.told disk.new) (D.status disk.old) (D.status disk.new) result }
    ensures plan { (D.status disk.new).plan ≡ (D.status disk.old).plan }
    ensures downs { (D.status disk.old).downs ≤ (D.status disk.new).downs }
{
    law_of_states();
    law_of_bad_images();
    if let Err(Down) = prepare(disk) {
        return Err(OpenFault::Down);
    }
    let mut buffers = Buffers::new(alloc);
    match Kernel::restart(alloc, disk, &mut buffers) {
        Ok(restarted) => Ok(restarted),
        Err(fault) => Err(open_fault(fault)),
    }
}
