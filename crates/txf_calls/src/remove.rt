// DeleteFile and RemoveDirectory, plain or in a transaction.
ghost use Rattle.std.specs.Prelude.{◌≡◌, ◌≤◌, IfOk, length};
ghost use Rattle.ktm_base.specs.declared.limits.TheConstants.{MOST_NAME_BYTES};
ghost use Rattle.ktm_base.specs.Names.{folded};
ghost use Rattle.ktm_world.specs.declared.recorded.Node.{Node};
ghost use Rattle.ktm_world.specs.FileCalls.{Whereabouts as There, at_node};
ghost use Rattle.ktm_world.specs.Files.{tree_seen};
ghost use Rattle.txf_calls.specs.Calls.{file_outcome};
ghost use Rattle.txf_calls.specs.Found.{IsFound};
ghost use Rattle.txf_calls.specs.Steps.{dropped};
ghost use Rattle.txf_calls.specs.There.{delete_there, remove_there};
ghost use Rattle.txf_opens.specs.Acts.{HasShortNames};
ghost use Rattle.txf_calls.specs.declared.call.FileCall.TheVariants.{Delete, RemoveDirectory};
ghost use Rattle.txf_calls.specs.Leads.{Leads, seen_of};

use crate::along::Whereabouts;
use crate::call::Room;
use crate::caller::{path_of, whereabouts};
use crate::plan::{Plan, within_quota};
use crate::view::Seen;
use crate::volume::Volume;
use ktm_base::{Id, NoMemory, Refusal, Text};
use ktm_world::Change;
use std::alloc::Global;
use txf_opens::{Act, Place};

// A node is dropped, where nothing that others hold or have open is against it, and no quota is passed.
fn drop_node<V: Volume>(volume: &V, who: Option<Id>, act: Act, node: u64, room: &Room) -> Plan
    requires { HasShortNames act }
    ensures { result ≡ dropped (V.files volume.now) room.now who act.entry node }
{
    if let Some(refusal) = volume.check(who, act) {
        return Plan::refused(refusal);
    }
    within_quota(volume, who, Plan::changing(Change::Drop { node }), room)
}

// The file that is there is dropped.
fn delete_node<V: Volume>(volume: &V, who: Option<Id>, node: Seen, name: &[u8], room: &Room) -> Plan
    requires { length name.now ≤ MOST_NAME_BYTES }
    ensures { (other : Node) → node ≡ seen_of other → folded other.name ≡ folded name.now → result ≡ delete_there (V.files volume.now) room.now who (at_node other) }
{
    if !node.is_file {
        return Plan::refused(Refusal::AccessDenied);
    }
    let act = Act::Delete {
        file: node.number,
        at: Place {
            directory: node.parent,
            name,
        },
    };
    drop_node(volume, who, act, node.number, room)
}

// What DeleteFile comes to where the path leads.
fn delete_at<V: Volume>(volume: &V, who: Option<Id>, there: Whereabouts, room: &Room) -> Plan
    requires { IsFound (tree_seen (V.files volume.now) who) there }
    ensures { (w : There) → Leads there.entry w → result ≡ delete_there (V.files volume.now) room.now who w }
{
    match there {
        Whereabouts::NoWay => Plan::refused(Refusal::PathNotFound),
        Whereabouts::Free { .. } => Plan::refused(Refusal::FileNotFound),
        Whereabouts::Root => Plan::refused(Refusal::AccessDenied),
        Whereabouts::Node { node, name } => delete_node(volume, who, node, name, room),
    }
}

/// Deletes a file.
pub(crate) fn delete<V: Volume>(
    alloc: Global,
    volume: &V,
    who: Option<Id>,
    path: &Text,
    room: &Room,
) -> Result<Plan, NoMemory>
    ensures { IfOk result (λ plan. plan ≡ file_outcome (V.files volume.now) room.now who (Delete path.now)) }
{
    let Some(path) = path_of(alloc, path)? else {
        return Ok(Plan::refused(Refusal::InvalidName));
    };
    let there = whereabouts(volume, who, &path);
    Ok(delete_at(volume, who, there, room))
}

// The directory that is there is dropped.
fn remove_node<V: Volume>(volume: &V, who: Option<Id>, node: Seen, name: &[u8], room: &Room) -> Plan
    requires { length name.now ≤ MOST_NAME_BYTES }
    ensures { (other : Node) → node ≡ seen_of other → folded other.name ≡ folded name.now → result ≡ remove_there (V.files volume.now) room.now who (at_node other) }
{
    if node.is_file {
        return Plan::refused(Refusal::Directory);
    }
    if volume.has_entries(who, node.number) {
        return Plan::refused(Refusal::DirNotEmpty);
    }
    let act = Act::DropDirectory {
        directory: node.number,
        at: Place {
            directory: node.parent,
            name,
        },
    };
    drop_node(volume, who, act, node.number, room)
}

// What RemoveDirectory comes to where the path leads.
fn remove_at<V: Volume>(volume: &V, who: Option<Id>, there: Whereabouts, room: &Room) -> Plan
    requires { IsFound (tree_seen (V.files volume.now) who) there }
    ensures { (w : There) → Leads there.entry w → result ≡ remove_there (V.files volume.now) room.now who w }
{
    match there {
        Whereabouts::NoWay => Plan::refused(Refusal::PathNotFound),
        Whereabouts::Free { .. } => Plan::refused(Refusal::FileNotFound),
        Whereabouts::Root => Plan::refused(Refusal::AccessDenied),
        Whereabouts::Node { node, name } => remove_node(volume, who, node, name, room),
    }
}

/// Removes a directory without entries.
pub(crate) fn remove_directory<V: Volume>(
    alloc: Global,
    volume: &V,
    who: Option<Id>,
    path: &Text,
    room: &Room,
) -> Result<Plan, NoMemory>
    ensures { IfOk result (λ plan. plan ≡ file_outcome (V.files volume.now) room.now who (RemoveDirectory path.now)) }
{
    let Some(path) = path_of(alloc, path)? else {
        return Ok(Plan::refused(Refusal::InvalidName));
    };
    let there = whereabouts(volume, who, &path);
    Ok(remove_at(volume, who, there, room))
}
