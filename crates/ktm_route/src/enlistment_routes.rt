// Calls on enlistments, once their labels are known.
ghost use Rattle.std.specs.Prelude.{◌≡◌, true, None, MatchOption};
ghost use Rattle.ktm_standing.specs.Standing.{IsStandingNow};
ghost use Rattle.ktm_laws.specs.Running.{HasEventsLeft};
ghost use Rattle.ktm_memory.specs.Memory.{present_of};
ghost use Rattle.ktm_phase.specs.Calls.{Names, reply_call, superior_call};
ghost use Rattle.ktm_route.specs.Route.{Routes, is_reply, kind_tests};
ghost use Rattle.ktm_world.specs.Values.{IsGiven};
ghost use Rattle.ktm_world.specs.declared.command.Command.TheVariants.{CreateEnlistment, GetEnlistmentRecoveryInformation, OpenEnlistment, RecoverEnlistment, SetEnlistmentRecoveryInformation};
ghost use Rattle.ktm_world.specs.Labels.{enlistment_named};
ghost use Rattle.ktm_world.specs.Outcome.{first_refusal};

use crate::labels::{active, enlistment_named, enlistment_with_guid, manager_named, object_at};
use ktm_base::{Bytes, Id, Label, MOST_INFORMATION_BYTES, Pid, Refusal};
use ktm_memory::{Labels, Memory, Routed};
use ktm_phase::{Enlistment, SuperiorCall, Vote, law_of_calls, law_of_coming};
use ktm_standing::{law_of_files, law_of_spelled};
use ktm_world::{Command, EnlistmentKind, Object, Transaction};
use uuid::Uuid;

// May an enlistment of this kind not be made of this resource manager, in this transaction: a superior wants one that is
// durable, and a transaction without a superior.
fn kind_refusal(
    memory: &Memory,
    manager: Id,
    transaction: Id,
    kind: EnlistmentKind,
) -> Option<Refusal>
    ensures { result ≡ first_refusal (kind_tests (present_of memory.now) manager transaction kind) }
{
    match kind {
        EnlistmentKind::Superior if !memory.tm().is_durable(manager) => {
            Some(Refusal::InvalidParameter)
        }
        EnlistmentKind::Superior if memory.tm().superior(transaction).is_some() => {
            Some(Refusal::TransactionSuperiorExists)
        }
        _ => None,
    }
}

// CreateEnlistment, whose label is not bound, of a resource manager in an active transaction.
pub(crate) fn to_enlist(
    memory: &Memory,
    process: Pid,
    label: Label,
    manager: Label,
    transaction: Label,
    kind: EnlistmentKind,
) -> Result<Routed, Refusal>
    requires up { memory.now.is_up ≡ true }
    requires standing { IsStandingNow (present_of memory.now) }
    ensures { Routes (present_of memory.now) process (CreateEnlistment label manager transaction kind) result }
{
    let Some(manager) = manager_named(memory, process, manager) else {
        return Err(Refusal::InvalidHandle);
    };
    match active(memory, process, transaction) {
        Ok(t) => {
            if object_at(memory, process, label).is_some() {
                return Err(Refusal::InvalidParameter);
            }
            match kind_refusal(memory, manager, t.id, kind) {
                Some(refusal) => Err(refusal),
                None => Ok(Routed::Enlist {
                    label,
                    manager,
                    transaction: t.id,
                    kind,
                }),
            }
        }
        Err(refusal) => Err(refusal),
    }
}

// OpenEnlistment, whose label is not bound, of a live enlistment of the resource manager.
pub(crate) fn to_open_enlistment(
    memory: &Memory,
    process: Pid,
    label: Label,
    manager: Label,
    guid: &Uuid,
) -> Result<Routed, Refusal>
    requires up { memory.now.is_up ≡ true }
    requires standing { IsStandingNow (present_of memory.now) }
    ensures { Routes (present_of memory.now) process (OpenEnlistment label manager guid.now) result }
{
    let Some(manager) = manager_named(memory, process, manager) else {
        return Err(Refusal::InvalidHandle);
    };
    if object_at(memory, process, label).is_some() {
        return Err(Refusal::InvalidParameter);
    }
    match enlistment_with_guid(memory, manager, guid) {
        Some(id) => Ok(Routed::Handles(Labels::Bind {
            label,
            object: Object::Enlistment(id),
        })),
        None => Err(Refusal::EnlistmentNotFound),
    }
}

// The enlistment that a label names, and its transaction.
fn with_transaction(
    memory: &Memory,
    process: Pid,
    label: Label,
) -> Option<(&Enlistment, Transaction)>
    requires { IsStandingNow (present_of memory.now) }
    ensures { MatchOption result (enlistment_named (present_of memory.now) process label ≡ None) (λ found. Names (present_of memory.now) process label found.0.now found.1) }
{
    let Some(e) = enlistment_named(memory, process, label) else {
        return None;
    };
    let Some(t) = memory.tm().find(e.transaction) else {
        unreachable!();
    };
    Some((e, t))
}

// A reply of an enlistment, where its transaction allows it.
fn to_reply(memory: &Memory, process: Pid, label: Label, vote: Vote) -> Result<Routed, Refusal>
    requires up { memory.now.is_up ≡ true }
    requires command { IsGiven (reply_call vote label) }
    requires standing { IsStandingNow (present_of memory.now) }
    requires counts { HasEventsLeft (present_of memory.now) }
    ensures { Routes (present_of memory.now) process (reply_call vote label) result }
{
    law_of_calls();
    law_of_coming();
    law_of_files();
    law_of_spelled();
    let Some((e, transaction)) = with_transaction(memory, process, label) else {
        return Err(Refusal::InvalidHandle);
    };
    match e.reply(transaction.phase, vote) {
        Ok(input) => Ok(Routed::Course {
            transaction,
            caller: Some(e.id),
            input,
        }),
        Err(refusal) => Err(refusal),
    }
}

// A call that is a reply of an enlistment.
pub(crate) fn route_reply(
    memory: &Memory,
    process: Pid,
    command: Command,
) -> Result<Routed, Refusal>
    requires up { memory.now.is_up ≡ true }
    requires command { IsGiven command }
    requires reply { is_reply command ≡ true }
    requires standing { IsStandingNow (present_of memory.now) }
    requires counts { HasEventsLeft (present_of memory.now) }
    ensures { Routes (present_of memory.now) process command result }
{
    match command {
        Command::PrePrepareComplete { enlistment } => {
            to_reply(memory, process, enlistment, Vote::PrePrepareComplete)
        }
        Command::PrepareComplete { enlistment } => {
            to_reply(memory, process, enlistment, Vote::PrepareComplete)
        }
        Command::ReadOnlyEnlistment { enlistment } => {
            to_reply(memory, process, enlistment, Vote::ReadOnly)
        }
        Command::CommitComplete { enlistment } => {
            to_reply(memory, process, enlistment, Vote::CommitComplete)
        }
        Command::RollbackComplete { enlistment } => {
            to_reply(memory, process, enlistment, Vote::RollbackComplete)
        }
        Command::SinglePhaseReject { enlistment } => {
            to_reply(memory, process, enlistment, Vote::SinglePhaseReject)
        }
        Command::RollbackEnlistment { enlistment } => {
            to_reply(memory, process, enlistment, Vote::Rollback)
        }
        _ => unreachable!(),
    }
}

// A call of a superior, where its transaction allows it.
pub(crate) fn to_lead(
    memory: &Memory,
    process: Pid,
    label: Label,
    call: SuperiorCall,
) -> Result<Routed, Refusal>
    requires up { memory.now.is_up ≡ true }
    requires command { IsGiven (superior_call call label) }
    requires standing { IsStandingNow (present_of memory.now) }
    requires counts { HasEventsLeft (present_of memory.now) }
    ensures { Routes (present_of memory.now) process (superior_call call label) result }
{
    law_of_calls();
    law_of_coming();
    law_of_files();
    law_of_spelled();
    let Some((e, transaction)) = with_transaction(memory, process, label) else {
        return Err(Refusal::InvalidHandle);
    };
    match call.step(e, transaction.phase) {
        Ok(input) => Ok(Routed::Course {
            transaction,
            caller: Some(e.id),
            input,
        }),
        Err(refusal) => Err(refusal),
    }
}

// RecoverEnlistment, where its transaction allows it.
pub(crate) fn to_recover(memory: &Memory, process: Pid, label: Label) -> Result<Routed, Refusal>
    requires up { memory.now.is_up ≡ true }
    requires command { IsGiven (RecoverEnlistment label) }
    requires standing { IsStandingNow (present_of memory.now) }
    requires counts { HasEventsLeft (present_of memory.now) }
    ensures { Routes (present_of memory.now) process (RecoverEnlistment label) result }
{
    law_of_calls();
    law_of_coming();
    law_of_files();
    law_of_spelled();
    let Some((e, transaction)) = with_transaction(memory, process, label) else {
        return Err(Refusal::InvalidHandle);
    };
    match e.recover(transaction.phase) {
        Ok(input) => Ok(Routed::Course {
            transaction,
            caller: Some(e.id),
            input,
        }),
        Err(refusal) => Err(refusal),
    }
}

// SetEnlistmentRecoveryInformation, where its transaction allows it, of no more bytes than there may be.
pub(crate) fn to_inform(
    memory: &Memory,
    process: Pid,
    label: Label,
    information: Bytes,
) -> Result<Routed, Refusal>
    requires up { memory.now.is_up ≡ true }
    requires standing { IsStandingNow (present_of memory.now) }
    ensures { Routes (present_of memory.now) process (SetEnlistmentRecoveryInformation label information) result }
{
    law_of_calls();
    let Some((e, t)) = with_transaction(memory, process, label) else {
        return Err(Refusal::InvalidHandle);
    };
    if !e.may_set_information(&t) {
        return Err(Refusal::TransactionRequestNotValid);
    }
    if information.len() > MOST_INFORMATION_BYTES {
        return Err(Refusal::InvalidParameter);
    }
    Ok(Routed::Inform {
        enlistment: e.id,
        information,
    })
}

// GetEnlistmentRecoveryInformation, of a live enlistment.
pub(crate) fn to_be_told(memory: &Memory, process: Pid, label: Label) -> Result<Routed, Refusal>
    requires up { memory.now.is_up ≡ true }
    requires standing { IsStandingNow (present_of memory.now) }
    ensures { Routes (present_of memory.now) process (GetEnlistmentRecoveryInformation label) result }
{
    let Some((e, t)) = with_transaction(memory, process, label) else {
        return Err(Refusal::InvalidHandle);
    };
    if e.is_live(&t) {
        Ok(Routed::Tell(e.id))
    } else {
        Err(Refusal::TransactionRequestNotValid)
    }
}
