// The plain disk of a program.
ghost use Rattle.std.specs.Prelude.{◌≡◌, IfOk, string_bytes};
ghost use Rattle.ktm_disk.specs.BlockDisk.{block_of, status_of};
ghost use Rattle.ktm_disk.specs.Status.{status_at_start};
ghost use Rattle.ktm_os.specs.Path.{path_of_block};

use crate::access::Access;
use crate::block::FileBlock;
use crate::late_file::LateFile;
use ktm_base::NoMemory;
use ktm_disk::BlockDisk;
use std::alloc::Global;
use std::fs::File;
use std::rt::Files;

/// A disk in a file, with no plan of power cuts. A call that fails takes it down for good: the range of a write may then
/// hold anything, and what was written since the last sync may be lost. Another disk, opened over the same file once this
/// one is dropped, goes on from what is there. What was written or added is safe once a sync has answered Ok, which has
/// synced the file, and its name in its folder. Dropping the disk closes the file.
pub type FileDisk<R> = BlockDisk<FileBlock<LateFile<R>>>;

/// The disk in the file of this path. The file is opened at the first call, made, empty, where there is none, and locked
/// from then on until the disk is dropped: a second disk over it goes down at its first call, also in another program.
/// NoMemory comes where there is no room for the list of what waits for a sync.
pub fn open_disk<R: Files<File = File> + Drop>(
    alloc: Global,
    rt: R,
    path: String,
) -> Result<FileDisk<R>, NoMemory>
    ensures path { IfOk result (λ disk. path_of_block (block_of disk) ≡ string_bytes path) }
    ensures access { IfOk result (λ disk. (block_of disk).image.file.access ≡ Access.Change) }
    ensures status { IfOk result (λ disk. status_of disk ≡ status_at_start) }
{
    BlockDisk::new(alloc, FileBlock::new(rt, path))
}
