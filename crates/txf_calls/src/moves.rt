// MoveFile, plain or in a transaction.
ghost use Rattle.std.specs.Prelude.{◌≡◌, ℕ, ◌≤◌, List, ◌∷◌, [], IfOk, length};
ghost use Rattle.ktm_base.specs.declared.limits.TheConstants.{MOST_NAME_BYTES};
ghost use Rattle.ktm_base.specs.Names.{folded};
ghost use Rattle.ktm_base.specs.declared.refusal.Refusal.TheVariants.{SharingViolation};
ghost use Rattle.ktm_world.specs.declared.change.Change.TheVariants.{Move as Shift};
ghost use Rattle.ktm_world.specs.declared.recorded.Node.{Node};
ghost use Rattle.ktm_world.specs.declared.reply.Reply.TheVariants.{Refused};
ghost use Rattle.ktm_world.specs.FileCalls.{Whereabouts as There, at_node, at_root, conflict_test, find_path, free, is_open_at, move_act};
ghost use Rattle.ktm_world.specs.FileOutcome.{answering};
ghost use Rattle.ktm_world.specs.Outcome.{first_refusal};
ghost use Rattle.ktm_world.specs.Files.{tree_seen};
ghost use Rattle.txf_calls.specs.Calls.{file_outcome};
ghost use Rattle.txf_calls.specs.Found.{IsFound, IsRoom};
ghost use Rattle.txf_calls.specs.There.{move_there};
ghost use Rattle.txf_calls.specs.declared.call.FileCall.TheVariants.{Move};
ghost use Rattle.txf_calls.specs.Leads.{Leads, seen_of};

use crate::along::Whereabouts;
use crate::call::Room;
use crate::caller::{path_of, whereabouts};
use crate::plan::{Plan, within_quota};
use crate::view::Seen;
use crate::volume::Volume;
use ktm_base::{Id, NoMemory, Refusal, Text};
use ktm_world::Change;
use std::alloc::Global;
use txf_opens::{Act, Place};

// Is the move refused for what others hold and have open.
fn check<V: Volume>(
    volume: &V,
    who: Option<Id>,
    node: Seen,
    name: &[u8],
    to: Place,
) -> Option<Refusal>
    requires from { length name.now ≤ MOST_NAME_BYTES }
    requires to { length to.name.now ≤ MOST_NAME_BYTES }
    ensures { (other : Node) → node ≡ seen_of other → folded other.name ≡ folded name.now
        → result ≡ first_refusal (conflict_test (V.files volume.now) who (move_act (at_node other) (free to.entry.directory to.entry.name.now)) ∷ (is_open_at (V.files volume.now) who (at_node other), SharingViolation) ∷ []) }
{
    let from = Place {
        directory: node.parent,
        name,
    };
    if node.is_file {
        let file = node.number;
        volume.check(who, Act::MoveFile { file, from, to })
    } else {
        let directory = node.number;
        volume.check(
            who,
            Act::MoveDirectory {
                directory,
                from,
                to,
            },
        )
    }
}

// The change that moves a node.
fn change_of(alloc: Global, node: Seen, to: Place) -> Result<Change, NoMemory>
    ensures { IfOk result (λ change. change ≡ Shift node.number to.entry.directory to.entry.name.now) }
{
    Ok(Change::Move {
        node: node.number,
        parent: to.directory,
        name: Text::new(to.name.to_vec(alloc)?),
    })
}

// The node that is there moves to a free name.
fn move_node<V: Volume>(
    alloc: Global,
    volume: &V,
    who: Option<Id>,
    node: Seen,
    name: &[u8],
    to: Place,
    room: &Room,
) -> Result<Plan, NoMemory>
    requires from { length name.now ≤ MOST_NAME_BYTES }
    requires to { IsRoom (tree_seen (V.files volume.now) who) to.directory to.name.now }
    ensures { (other : Node) → node ≡ seen_of other → folded other.name ≡ folded name.now → IfOk result (λ plan. plan ≡ move_there (V.files volume.now) room.now who (at_node other) (free to.entry.directory to.entry.name.now)) }
{
    if volume.is_at_or_below(who, to.directory, node.number) {
        return Ok(Plan::refused(Refusal::AccessDenied));
    }
    if let Some(refusal) = check(volume, who, node, name, to) {
        return Ok(Plan::refused(refusal));
    }
    let change = change_of(alloc, node, to)?;
    Ok(within_quota(volume, who, Plan::changing(change), room))
}

// Why nothing moves from a free name.
fn from_free(to: Whereabouts) -> Refusal
    ensures { (files : _) (room : _) (who : _) (directory : _) (name : _) (w : There) → Leads to.entry w → move_there files room who (free directory name) w ≡ answering (Refused result) }
{
    match to {
        Whereabouts::NoWay => Refusal::PathNotFound,
        Whereabouts::Free { .. } => Refusal::FileNotFound,
        Whereabouts::Root => Refusal::FileNotFound,
        Whereabouts::Node { .. } => Refusal::FileNotFound,
    }
}

// Why the root does not move.
fn from_root(to: Whereabouts) -> Refusal
    ensures { (files : _) (room : _) (who : _) (w : There) → Leads to.entry w → move_there files room who at_root w ≡ answering (Refused result) }
{
    match to {
        Whereabouts::NoWay => Refusal::PathNotFound,
        Whereabouts::Free { .. } => Refusal::AccessDenied,
        Whereabouts::Root => Refusal::AlreadyExists,
        Whereabouts::Node { .. } => Refusal::AlreadyExists,
    }
}

// What the move of a node comes to, where the second path leads.
fn move_to<V: Volume>(
    alloc: Global,
    volume: &V,
    who: Option<Id>,
    node: Seen,
    name: &[u8],
    to: Whereabouts,
    room: &Room,
) -> Result<Plan, NoMemory>
    requires from { length name.now ≤ MOST_NAME_BYTES }
    requires to { IsFound (tree_seen (V.files volume.now) who) to }
    ensures { (other : Node) (w : There) → node ≡ seen_of other → folded other.name ≡ folded name.now → Leads to.entry w → IfOk result (λ plan. plan ≡ move_there (V.files volume.now) room.now who (at_node other) w) }
{
    match to {
        Whereabouts::NoWay => Ok(Plan::refused(Refusal::PathNotFound)),
        Whereabouts::Free {
            directory,
            name: free,
        } => {
            let place = Place {
                directory,
                name: free,
            };
            move_node(alloc, volume, who, node, name, place, room)
        }
        Whereabouts::Root => Ok(Plan::refused(Refusal::AlreadyExists)),
        Whereabouts::Node { .. } => Ok(Plan::refused(Refusal::AlreadyExists)),
    }
}

// What MoveFile comes to where the paths lead.
fn move_at<V: Volume>(
    alloc: Global,
    volume: &V,
    who: Option<Id>,
    from: Whereabouts,
    to: Whereabouts,
    room: &Room,
) -> Result<Plan, NoMemory>
    requires from { IsFound (tree_seen (V.files volume.now) who) from }
    requires to { IsFound (tree_seen (V.files volume.now) who) to }
    ensures { (u w : There) → Leads from.entry u → Leads to.entry w → IfOk result (λ plan. plan ≡ move_there (V.files volume.now) room.now who u w) }
{
    match from {
        Whereabouts::NoWay => Ok(Plan::refused(Refusal::PathNotFound)),
        Whereabouts::Free { .. } => Ok(Plan::refused(from_free(to))),
        Whereabouts::Root => Ok(Plan::refused(from_root(to))),
        Whereabouts::Node { node, name } => move_to(alloc, volume, who, node, name, to, room),
    }
}

// What MoveFile comes to where the first path leads.
fn move_from<V: Volume>(
    alloc: Global,
    volume: &V,
    who: Option<Id>,
    from: Whereabouts,
    target: &Text,
    room: &Room,
) -> Result<Plan, NoMemory>
    requires { IsFound (tree_seen (V.files volume.now) who) from }
    ensures { (source : List ℕ) → Leads from.entry (find_path (tree_seen (V.files volume.now) who) source) → IfOk result (λ plan. plan ≡ file_outcome (V.files volume.now) room.now who (Move source target.now)) }
{
    let Some(target) = path_of(alloc, target)? else {
        return Ok(Plan::refused(Refusal::InvalidName));
    };
    let to = whereabouts(volume, who, &target);
    move_at(alloc, volume, who, from, to, room)
}

/// Moves a file or a directory to a free name.
pub(crate) fn move_file<V: Volume>(
    alloc: Global,
    volume: &V,
    who: Option<Id>,
    source: &Text,
    target: &Text,
    room: &Room,
) -> Result<Plan, NoMemory>
    ensures { IfOk result (λ plan. plan ≡ file_outcome (V.files volume.now) room.now who (Move source.now target.now)) }
{
    let Some(source) = path_of(alloc, source)? else {
        return Ok(Plan::refused(Refusal::InvalidName));
    };
    let from = whereabouts(volume, who, &source);
    move_from(alloc, volume, who, from, target, room)
}
