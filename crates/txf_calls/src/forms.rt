// Each call by its form.
ghost use Rattle.std.specs.Prelude.{◌≡◌, false, IfOk, IsOk};
ghost use Rattle.txf_calls.specs.Calls.{file_outcome, takes_memory};
ghost use Rattle.txf_laws.specs.FileEffects.{IsOrderly};
ghost use Rattle.txf_calls.specs.Fits.{MayBeUsed};

use crate::call::{FileCall, Room};
use crate::create::{Modes, create};
use crate::directory::make_directory;
use crate::handle::{flush, set_end, size, write, write_units};
use crate::moves::move_file;
use crate::plan::Plan;
use crate::remove::{delete, remove_directory};
use crate::search::find_files;
use crate::volume::Volume;
use ktm_base::{Id, NoMemory};
use std::alloc::Global;

/// What a call comes to: the first of its tests that holds refuses it, or else what it is for is planned. Nothing is
/// changed. It takes memory for the names that the plan has, and for what the reply tells.
pub fn decide<V: Volume>(
    alloc: Global,
    volume: &V,
    who: Option<Id>,
    call: FileCall,
    room: &Room,
) -> Result<Plan, NoMemory>
    requires orderly { IsOrderly (V.files volume.now) }
    requires usable { MayBeUsed (V.files volume.now) call }
    ensures plan { IfOk result (λ plan. plan ≡ file_outcome (V.files volume.now) room.now who call) }
    ensures enough { takes_memory call ≡ false → IsOk result }
{
    match call {
        FileCall::Create {
            path,
            access,
            share,
            disposition,
        } => {
            let modes = Modes {
                access,
                share,
                disposition,
            };
            create(alloc, volume, who, &path, modes, room)
        }
        FileCall::Write {
            file,
            offset,
            bytes,
        } => Ok(write(volume, file, offset, bytes, room)),
        FileCall::WriteUnits {
            file,
            start,
            contents,
        } => Ok(write_units(volume, file, start, contents, room)),
        FileCall::SetEnd { file, size } => Ok(set_end(alloc, volume, file, size, room)),
        FileCall::Size { file } => Ok(size(volume, file)),
        FileCall::Flush { file } => Ok(flush(volume, file)),
        FileCall::Delete { path } => delete(alloc, volume, who, &path, room),
        FileCall::MakeDirectory { path } => make_directory(alloc, volume, who, &path, room),
        FileCall::RemoveDirectory { path } => remove_directory(alloc, volume, who, &path, room),
        FileCall::Move { source, target } => move_file(alloc, volume, who, &source, &target, room),
        FileCall::Find { pattern } => find_files(alloc, volume, who, &pattern, room),
    }
}
