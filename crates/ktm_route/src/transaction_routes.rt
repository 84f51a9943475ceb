// Calls on transactions and handles, once their labels are known.
ghost use Rattle.std.specs.Prelude.{◌≡◌, true, Some, None};
ghost use Rattle.ktm_base.specs.declared.refusal.Refusal.TheVariants.{InvalidParameter};
ghost use Rattle.ktm_standing.specs.Standing.{IsStandingNow};
ghost use Rattle.ktm_laws.specs.Running.{HasEventsLeft};
ghost use Rattle.ktm_memory.specs.Memory.{present_of};
ghost use Rattle.ktm_route.specs.Route.{Routes};
ghost use Rattle.ktm_world.specs.Values.{IsGiven};
ghost use Rattle.ktm_world.specs.declared.command.Command.TheVariants.{CloseHandle, CommitTransaction, CreateTransaction, DuplicateHandle, GetTransactionInformation, OpenTransaction, RollbackTransaction};

use crate::labels::{active, named, object_at, source_refusal, with_guid};
use ktm_base::{Label, Pid, Refusal};
use ktm_memory::{Labels, Memory, Routed};
use ktm_standing::{law_of_files, law_of_spelled};
use ktm_tm::rollback_refusal;
use ktm_world::{Object, PhaseInput};
use uuid::Uuid;

// CreateTransaction, whose label is not bound.
pub(crate) fn to_create(
    memory: &Memory,
    process: Pid,
    label: Label,
    timeout: u32,
) -> Result<Routed, Refusal>
    requires { memory.now.is_up ≡ true }
    ensures { Routes (present_of memory.now) process (CreateTransaction label timeout) result }
{
    if object_at(memory, process, label).is_some() {
        return Err(Refusal::InvalidParameter);
    }
    Ok(Routed::Create { label, timeout })
}

// OpenTransaction, whose label is not bound, of a live transaction.
pub(crate) fn to_open(
    memory: &Memory,
    process: Pid,
    label: Label,
    guid: &Uuid,
) -> Result<Routed, Refusal>
    requires up { memory.now.is_up ≡ true }
    requires standing { IsStandingNow (present_of memory.now) }
    ensures { Routes (present_of memory.now) process (OpenTransaction label guid.now) result }
{
    if object_at(memory, process, label).is_some() {
        return Err(Refusal::InvalidParameter);
    }
    match with_guid(memory, guid) {
        Some(t) => Ok(Routed::Handles(Labels::Bind {
            label,
            object: Object::Transaction(t.id),
        })),
        None => Err(Refusal::TransactionNotFound),
    }
}

// DuplicateHandle, whose label is not bound, of a handle that is not dead.
pub(crate) fn to_duplicate(
    memory: &Memory,
    process: Pid,
    label: Label,
    from: Pid,
    source: Label,
) -> Result<Routed, Refusal>
    requires { memory.now.is_up ≡ true }
    ensures { Routes (present_of memory.now) process (DuplicateHandle label from source) result }
{
    if let Some(refusal) = source_refusal(memory, object_at(memory, from, source)) {
        return Err(refusal);
    }
    if object_at(memory, process, label).is_some() {
        return Err(Refusal::InvalidParameter);
    }
    Ok(Routed::Handles(Labels::Duplicate {
        label,
        from,
        source,
    }))
}

// RollbackTransaction, of a transaction that may be rolled back.
pub(crate) fn to_roll_back(memory: &Memory, process: Pid, label: Label) -> Result<Routed, Refusal>
    requires up { memory.now.is_up ≡ true }
    requires command { IsGiven (RollbackTransaction label) }
    requires standing { IsStandingNow (present_of memory.now) }
    requires counts { HasEventsLeft (present_of memory.now) }
    ensures { Routes (present_of memory.now) process (RollbackTransaction label) result }
{
    law_of_spelled();
    law_of_files();
    let Some(t) = named(memory, process, label) else {
        return Err(Refusal::InvalidHandle);
    };
    match rollback_refusal(&t) {
        Some(refusal) => Err(refusal),
        None => Ok(Routed::Course {
            transaction: t,
            caller: None,
            input: PhaseInput::Rollback,
        }),
    }
}

// GetTransactionInformation, of a transaction.
pub(crate) fn to_tell(memory: &Memory, process: Pid, label: Label) -> Result<Routed, Refusal>
    requires { memory.now.is_up ≡ true }
    ensures { Routes (present_of memory.now) process (GetTransactionInformation label) result }
{
    match named(memory, process, label) {
        Some(t) => Ok(Routed::Information(t)),
        None => Err(Refusal::InvalidHandle),
    }
}

// CloseHandle, of a handle.
pub(crate) fn to_close(memory: &Memory, process: Pid, label: Label) -> Result<Routed, Refusal>
    requires { memory.now.is_up ≡ true }
    ensures { Routes (present_of memory.now) process (CloseHandle label) result }
{
    if object_at(memory, process, label).is_none() {
        return Err(Refusal::InvalidHandle);
    }
    Ok(Routed::Handles(Labels::Unbind(label)))
}

// CommitTransaction, of an active transaction.
pub(crate) fn to_commit(memory: &Memory, process: Pid, label: Label) -> Result<Routed, Refusal>
    requires up { memory.now.is_up ≡ true }
    requires command { IsGiven (CommitTransaction label) }
    requires standing { IsStandingNow (present_of memory.now) }
    requires counts { HasEventsLeft (present_of memory.now) }
    ensures { Routes (present_of memory.now) process (CommitTransaction label) result }
{
    law_of_spelled();
    law_of_files();
    match active(memory, process, label) {
        Ok(t) => Ok(Routed::Course {
            transaction: t,
            caller: None,
            input: PhaseInput::CommitTransaction,
        }),
        Err(refusal) => Err(refusal),
    }
}
