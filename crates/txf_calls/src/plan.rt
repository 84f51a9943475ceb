// What a call comes to.
ghost use Rattle.std.specs.Prelude.{◌≡◌, IfOk, Some, None};
ghost use Rattle.ktm_world.specs.declared.change.Change.TheVariants.{Make};
ghost use Rattle.ktm_world.specs.declared.reply.Reply.TheVariants.{Done, Refused};
ghost use Rattle.std.specs.Prelude.{◌∷◌, []};
ghost use Rattle.ktm_base.specs.declared.refusal.Refusal.TheVariants.{NotEnoughQuota};
ghost use Rattle.ktm_world.specs.FileCalls.{limit_tests};
ghost use Rattle.ktm_world.specs.FileOutcome.{answering, changing, lacks_quota};
ghost use Rattle.ktm_world.specs.Outcome.{first_refusal};
ghost use Rattle.txf_calls.specs.Calls.{unless_refused};
ghost use Rattle.txf_calls.specs.Fits.{IsFit};

use crate::call::Room;
use crate::volume::Volume;
use ktm_base::{Id, NoMemory, Refusal, Text};
use ktm_world::{Change, NodeKind, Reply};
use std::alloc::Global;
use std::marker::Model;
use txf_opens::{OpenFile, Place};

/// What a call comes to: its reply, and what of the files it changes.
#[derive(Drop)]
pub struct Plan {
    pub reply: Reply,
    /// A change, which a plain call commits, and a transaction keeps.
    pub change: Option<Change>,
    /// A file that the transaction opens first.
    pub first: Option<u64>,
    /// A file that is open from now on.
    pub opened: Option<OpenFile>,
}

impl Model for Plan {
    ghost use Rattle.std.specs.Option.{option_map};
    ghost use Rattle.ktm_world.specs.FileOutcome.{FileOutcome};
    ghost use Rattle.txf_opens.specs.Acts.{open_of};

    ghost Value = { FileOutcome };

    ghost view = { λ p. record { reply = p.reply; change = p.change; first = p.first; opened = option_map open_of p.opened } };
}

impl Plan {
    /// Nothing but a reply.
    pub(crate) fn answering(reply: Reply) -> Plan
        ensures { result ≡ answering reply }
    {
        Plan {
            reply,
            change: None,
            first: None,
            opened: None,
        }
    }

    pub(crate) fn refused(refusal: Refusal) -> Plan
        ensures { result ≡ answering (Refused refusal) }
    {
        Plan::answering(Reply::Refused(refusal))
    }

    /// One change.
    pub(crate) fn changing(change: Change) -> Plan
        ensures { result ≡ changing change }
    {
        Plan {
            reply: Reply::Done,
            change: Some(change),
            first: None,
            opened: None,
        }
    }
}

/// The change that makes a node.
pub(crate) fn making(
    alloc: Global,
    node: u64,
    kind: NodeKind,
    at: Place,
) -> Result<Change, NoMemory>
    ensures { IfOk result (λ change. change ≡ Make node at.entry.directory kind at.entry.name.now) }
{
    match at.name.to_vec(alloc) {
        Ok(name) => Ok(Change::Make {
            node,
            parent: at.directory,
            kind,
            name: Text::new(name),
        }),
        Err(_) => Err(NoMemory),
    }
}

/// The plan, unless it is refused.
pub(crate) fn unless_refused(refusal: Option<Refusal>, plan: Plan) -> Plan
    ensures { result ≡ unless_refused refusal plan }
{
    match refusal {
        Some(refusal) => Plan::refused(refusal),
        None => plan,
    }
}

// Why a plan that passes a quota is refused.
fn quota_refusal<V: Volume>(
    volume: &V,
    who: Option<Id>,
    plan: &Plan,
    room: &Room,
) -> Option<Refusal>
    ensures { result ≡ first_refusal ((lacks_quota (V.files volume.now) room.now who plan.now, NotEnoughQuota) ∷ []) }
{
    if volume.lacks_quota(who, plan, room) {
        Some(Refusal::NotEnoughQuota)
    } else {
        None
    }
}

// Why a plan that passes a limit is refused.
fn limit_refusal<V: Volume>(
    volume: &V,
    who: Option<Id>,
    plan: &Plan,
    room: &Room,
) -> Option<Refusal>
    requires { IsFit (V.files volume.now) who plan.now }
    ensures { result ≡ first_refusal (limit_tests (V.files volume.now) room.now who plan.now) }
{
    if volume.lacks_quota(who, plan, room) {
        return Some(Refusal::NotEnoughQuota);
    }
    if volume.lacks_disk(who, plan, room) {
        return Some(Refusal::DiskFull);
    }
    None
}

/// The plan, where it passes no quota.
pub(crate) fn within_quota<V: Volume>(volume: &V, who: Option<Id>, plan: Plan, room: &Room) -> Plan
    ensures { result ≡ unless_refused (first_refusal ((lacks_quota (V.files volume.now) room.now who plan, NotEnoughQuota) ∷ [])) plan }
{
    let refusal = quota_refusal(volume, who, &plan, room);
    unless_refused(refusal, plan)
}

/// The plan, where it passes no limit.
pub(crate) fn within_limits<V: Volume>(volume: &V, who: Option<Id>, plan: Plan, room: &Room) -> Plan
    requires { IsFit (V.files volume.now) who plan }
    ensures { result ≡ unless_refused (first_refusal (limit_tests (V.files volume.now) room.now who plan)) plan }
{
    let refusal = limit_refusal(volume, who, &plan, room);
    unless_refused(refusal, plan)
}
