// CreateDirectory, plain or in a transaction.
ghost use Rattle.std.specs.Prelude.{◌≡◌, ◌≤◌, IfOk, length};
ghost use Rattle.ktm_base.specs.declared.limits.TheConstants.{MOST_NAME_BYTES};
ghost use Rattle.ktm_world.specs.FileCalls.{Whereabouts as There, free};
ghost use Rattle.ktm_world.specs.Files.{tree_seen};
ghost use Rattle.txf_calls.specs.Calls.{file_outcome};
ghost use Rattle.txf_laws.specs.FileEffects.{IsOrderly};
ghost use Rattle.txf_calls.specs.Found.{IsFound};
ghost use Rattle.txf_calls.specs.There.{make_there};
ghost use Rattle.txf_calls.specs.declared.call.FileCall.TheVariants.{MakeDirectory};
ghost use Rattle.txf_calls.specs.Leads.{Leads};

use crate::along::Whereabouts;
use crate::call::Room;
use crate::caller::{path_of, whereabouts};
use crate::plan::{Plan, making, within_limits};
use crate::volume::Volume;
use ktm_base::{Id, NoMemory, Refusal, Text};
use ktm_world::NodeKind;
use std::alloc::Global;
use txf_opens::{Act, Place};

// A directory is made under a free name.
fn make<V: Volume>(
    alloc: Global,
    volume: &V,
    who: Option<Id>,
    at: Place,
    room: &Room,
) -> Result<Plan, NoMemory>
    requires orderly { IsOrderly (V.files volume.now) }
    requires short { length at.name.now ≤ MOST_NAME_BYTES }
    ensures { IfOk result (λ plan. plan ≡ make_there (V.files volume.now) room.now who (free at.entry.directory at.entry.name.now)) }
{
    if let Some(refusal) = volume.check(who, Act::Make { at }) {
        return Ok(Plan::refused(refusal));
    }
    let change = making(alloc, volume.next_node(), NodeKind::Directory, at)?;
    Ok(within_limits(volume, who, Plan::changing(change), room))
}

// What CreateDirectory comes to where the path leads.
fn make_at<V: Volume>(
    alloc: Global,
    volume: &V,
    who: Option<Id>,
    there: Whereabouts,
    room: &Room,
) -> Result<Plan, NoMemory>
    requires orderly { IsOrderly (V.files volume.now) }
    requires found { IsFound (tree_seen (V.files volume.now) who) there }
    ensures { (w : There) → Leads there.entry w → IfOk result (λ plan. plan ≡ make_there (V.files volume.now) room.now who w) }
{
    match there {
        Whereabouts::NoWay => Ok(Plan::refused(Refusal::PathNotFound)),
        Whereabouts::Free { directory, name } => {
            make(alloc, volume, who, Place { directory, name }, room)
        }
        Whereabouts::Root => Ok(Plan::refused(Refusal::AlreadyExists)),
        Whereabouts::Node { .. } => Ok(Plan::refused(Refusal::AlreadyExists)),
    }
}

/// Makes a directory.
pub(crate) fn make_directory<V: Volume>(
    alloc: Global,
    volume: &V,
    who: Option<Id>,
    path: &Text,
    room: &Room,
) -> Result<Plan, NoMemory>
    requires { IsOrderly (V.files volume.now) }
    ensures { IfOk result (λ plan. plan ≡ file_outcome (V.files volume.now) room.now who (MakeDirectory path.now)) }
{
    let Some(path) = path_of(alloc, path)? else {
        return Ok(Plan::refused(Refusal::InvalidName));
    };
    let there = whereabouts(volume, who, &path);
    make_at(alloc, volume, who, there, room)
}
