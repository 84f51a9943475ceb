// CreateFile, plain or in a transaction.
ghost use Rattle.std.specs.Prelude.{◌≡◌, ◌≤◌, ◌&&◌, not, true, IfOk, IfSome, IfNone, length};
ghost use Rattle.ktm_base.specs.declared.limits.TheConstants.{MOST_NUMBER, MOST_NAME_BYTES};
ghost use Rattle.ktm_world.specs.declared.recorded.Node.{Node};
ghost use Rattle.ktm_world.specs.Conflicts.{writes};
ghost use Rattle.ktm_world.specs.FileCalls.{Whereabouts as There, at_node, create_at, empties, emptying, first_opening, free, is_truncate_existing, new_open};
ghost use Rattle.ktm_world.specs.Files.{tree_seen};
ghost use Rattle.txf_calls.specs.Calls.{file_outcome};
ghost use Rattle.txf_laws.specs.FileEffects.{IsOrderly};
ghost use Rattle.txf_calls.specs.Found.{IsFound, has_file};
ghost use Rattle.txf_calls.specs.Steps.{checked, taken};
ghost use Rattle.txf_calls.specs.There.{create_there};
ghost use Rattle.txf_opens.specs.Acts.{open_of};
ghost use Rattle.txf_opens.specs.declared.act.Act.TheVariants.{Make, Open};
ghost use Rattle.txf_calls.specs.declared.call.FileCall.TheVariants.{Create};
ghost use Rattle.txf_calls.specs.Leads.{Leads, seen_of};

use crate::along::Whereabouts;
use crate::call::Room;
use crate::caller::{path_of, whereabouts};
use crate::modes::{empties, wants_existing, wants_new, wants_write};
use crate::plan::{Plan, making, within_limits};
use crate::view::Seen;
use crate::volume::Volume;
use ktm_base::{Id, NoMemory, PageList, Refusal, Text};
use ktm_world::{Access, Change, Disposition, NodeKind, Reply, ShareMode};
use std::alloc::Global;
use txf_opens::{Act, OpenFile, Place, writes};

// What a file is opened for.
#[derive(Clone, Copy)]
pub(crate) struct Modes {
    pub(crate) access: Access,
    pub(crate) share: ShareMode,
    pub(crate) disposition: Disposition,
}

// The file that is open then. No number is left behind the last one.
fn next_open<V: Volume>(volume: &V, who: Option<Id>, node: u64, modes: Modes) -> Option<OpenFile>
    ensures some { IfSome result (λ o. open_of o ≡ new_open (V.files volume.now) who node modes.access modes.share) }
    ensures none { IfNone result ((V.files volume.now).table.last_open ≡ MOST_NUMBER) }
{
    match volume.last_open().checked_add(1) {
        Some(number) => Some(OpenFile {
            number,
            node,
            transaction: who,
            access: modes.access,
            share: modes.share,
        }),
        None => None,
    }
}

// A file is made under a free name, and is open then.
fn make_file<V: Volume>(
    alloc: Global,
    volume: &V,
    who: Option<Id>,
    at: Place,
    modes: Modes,
    room: &Room,
) -> Result<Plan, NoMemory>
    requires orderly { IsOrderly (V.files volume.now) }
    requires short { length at.name.now ≤ MOST_NAME_BYTES }
    ensures { IfOk result (λ plan. plan ≡ checked (V.files volume.now) room.now who (Make at.entry) (create_at (V.files volume.now) who (free at.entry.directory at.entry.name.now) modes.access modes.share modes.disposition)) }
{
    if let Some(refusal) = volume.check(who, Act::Make { at }) {
        return Ok(Plan::refused(refusal));
    }
    let node = volume.next_node();
    let Some(opened) = next_open(volume, who, node, modes) else {
        return Ok(Plan::refused(Refusal::NotEnoughQuota));
    };
    let plan = Plan {
        reply: Reply::Done,
        change: Some(making(alloc, node, NodeKind::File, at)?),
        first: None,
        opened: Some(opened),
    };
    Ok(within_limits(volume, who, plan, room))
}

// The change that empties the file, where the disposition says so.
fn emptying(alloc: Global, disposition: Disposition, file: u64) -> Option<Change>
    ensures { result ≡ emptying disposition file }
{
    if !empties(disposition) {
        return None;
    }
    Some(Change::Cut {
        node: file,
        size: 0,
        pages: PageList::new(Vec::new(alloc)),
    })
}

// The file, where an open makes it the caller's first one.
fn first_opening<V: Volume>(volume: &V, who: Option<Id>, file: u64) -> Option<u64>
    ensures { result ≡ first_opening (V.files volume.now) who file }
{
    if volume.is_first_opening(who, file) {
        Some(file)
    } else {
        None
    }
}

// The file that is there is emptied or left as it is, and is open then.
fn open_file<V: Volume>(
    alloc: Global,
    volume: &V,
    who: Option<Id>,
    file: u64,
    modes: Modes,
    room: &Room,
) -> Plan
    requires orderly { IsOrderly (V.files volume.now) }
    requires file { has_file (tree_seen (V.files volume.now) who) file ≡ true }
    ensures { (node : Node) → file ≡ node.number → result ≡ checked (V.files volume.now) room.now who (Open file modes.access (empties modes.disposition) modes.share) (create_at (V.files volume.now) who (at_node node) modes.access modes.share modes.disposition) }
{
    let act = Act::Open {
        file,
        access: modes.access,
        truncates: empties(modes.disposition),
        share: modes.share,
    };
    if let Some(refusal) = volume.check(who, act) {
        return Plan::refused(refusal);
    }
    let Some(opened) = next_open(volume, who, file, modes) else {
        return Plan::refused(Refusal::NotEnoughQuota);
    };
    let plan = Plan {
        reply: Reply::Done,
        change: emptying(alloc, modes.disposition, file),
        first: first_opening(volume, who, file),
        opened: Some(opened),
    };
    within_limits(volume, who, plan, room)
}

// Why a name that is taken is refused.
fn taken(disposition: Disposition) -> Refusal
    ensures { result ≡ taken disposition }
{
    if wants_new(disposition) {
        Refusal::FileExists
    } else {
        Refusal::AccessDenied
    }
}

// A name that is taken is refused, or the file that has it is opened.
fn open_taken<V: Volume>(
    alloc: Global,
    volume: &V,
    who: Option<Id>,
    node: Seen,
    modes: Modes,
    room: &Room,
) -> Plan
    requires orderly { IsOrderly (V.files volume.now) }
    requires file { node.is_file ≡ true → has_file (tree_seen (V.files volume.now) who) node.number ≡ true }
    ensures { (other : Node) → node ≡ seen_of other → result ≡ create_there (V.files volume.now) room.now who modes.access modes.share modes.disposition (at_node other) }
{
    if wants_new(modes.disposition) || !node.is_file {
        return Plan::refused(taken(modes.disposition));
    }
    open_file(alloc, volume, who, node.number, modes, room)
}

// A free name is refused, or a file is made under it.
fn make_free<V: Volume>(
    alloc: Global,
    volume: &V,
    who: Option<Id>,
    at: Place,
    modes: Modes,
    room: &Room,
) -> Result<Plan, NoMemory>
    requires orderly { IsOrderly (V.files volume.now) }
    requires short { length at.name.now ≤ MOST_NAME_BYTES }
    ensures { IfOk result (λ plan. plan ≡ create_there (V.files volume.now) room.now who modes.access modes.share modes.disposition (free at.entry.directory at.entry.name.now)) }
{
    if wants_existing(modes.disposition) {
        return Ok(Plan::refused(Refusal::FileNotFound));
    }
    make_file(alloc, volume, who, at, modes, room)
}

// What CreateFile comes to where the path leads.
fn create_at<V: Volume>(
    alloc: Global,
    volume: &V,
    who: Option<Id>,
    there: Whereabouts,
    modes: Modes,
    room: &Room,
) -> Result<Plan, NoMemory>
    requires orderly { IsOrderly (V.files volume.now) }
    requires found { IsFound (tree_seen (V.files volume.now) who) there }
    ensures { (w : There) → Leads there.entry w → IfOk result (λ plan. plan ≡ create_there (V.files volume.now) room.now who modes.access modes.share modes.disposition w) }
{
    match there {
        Whereabouts::NoWay => Ok(Plan::refused(Refusal::PathNotFound)),
        Whereabouts::Free { directory, name } => {
            make_free(alloc, volume, who, Place { directory, name }, modes, room)
        }
        Whereabouts::Root => Ok(Plan::refused(taken(modes.disposition))),
        Whereabouts::Node { node, .. } => Ok(open_taken(alloc, volume, who, node, modes, room)),
    }
}

// Is a file to be emptied that is not opened for writing.
fn lacks_access(modes: Modes) -> bool
    ensures { result ≡ (is_truncate_existing modes.disposition && not (writes modes.access)) }
{
    wants_write(modes.disposition) && !writes(modes.access)
}

/// Makes or opens a file, as the disposition says.
pub(crate) fn create<V: Volume>(
    alloc: Global,
    volume: &V,
    who: Option<Id>,
    path: &Text,
    modes: Modes,
    room: &Room,
) -> Result<Plan, NoMemory>
    requires { IsOrderly (V.files volume.now) }
    ensures { IfOk result (λ plan. plan ≡ file_outcome (V.files volume.now) room.now who (Create path.now modes.access modes.share modes.disposition)) }
{
    if lacks_access(modes) {
        return Ok(Plan::refused(Refusal::InvalidParameter));
    }
    let Some(path) = path_of(alloc, path)? else {
        return Ok(Plan::refused(Refusal::InvalidName));
    };
    create_at(
        alloc,
        volume,
        who,
        whereabouts(volume, who, &path),
        modes,
        room,
    )
}
