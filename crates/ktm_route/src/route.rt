// From labels to objects.
ghost use Rattle.std.specs.Prelude.{◌≡◌, true, Some};
ghost use Rattle.ktm_standing.specs.Standing.{IsStandingNow};
ghost use Rattle.ktm_laws.specs.Running.{HasEventsLeft};
ghost use Rattle.ktm_memory.specs.Memory.{present_of};
ghost use Rattle.ktm_route.specs.Route.{NeedsNoBytes, Routes};
ghost use Rattle.ktm_world.specs.Values.{IsGiven};
ghost use Rattle.ktm_world.specs.declared.command.Command.TheVariants.{CloseHandle, CommitTransaction, CreateTransaction, DuplicateHandle, GetTransactionInformation, OpenTransaction, RollbackTransaction};

use crate::enlistment_routes::{
    route_reply, to_be_told, to_enlist, to_inform, to_lead, to_open_enlistment, to_recover,
};
use crate::file_routes::{route_open, route_path, route_transacted};
use crate::labels::{active, viewer};
use crate::manager_routes::{to_make_manager, to_open_manager, to_recover_manager, to_take};
use crate::transaction_routes::{
    to_close, to_commit, to_create, to_duplicate, to_open, to_roll_back, to_tell,
};
use ktm_base::{Pid, Refusal};
use ktm_memory::{Labels, Memory, Routed};
use ktm_phase::SuperiorCall;
use ktm_world::Command;
use kv_rm::KvCall;
use std::alloc::Global;

/// The call, with what its labels name; or the refusal of a label, or of what it names.
pub(crate) fn route(
    memory: &Memory,
    alloc: Global,
    process: Pid,
    command: Command,
) -> Result<Routed, Refusal>
    requires up { memory.now.is_up ≡ true }
    requires command { IsGiven command }
    requires bytes { NeedsNoBytes (present_of memory.now) process command }
    requires standing { IsStandingNow (present_of memory.now) }
    requires counts { HasEventsLeft (present_of memory.now) }
    ensures { Routes (present_of memory.now) process command result }
{
    match command {
        Command::CreateTransaction { label, timeout } => {
            to_create(memory, process, label, timeout)
        }
        Command::OpenTransaction { label, guid } => { to_open(memory, process, label, &guid) }
        Command::CommitTransaction { transaction } => { to_commit(memory, process, transaction) }
        Command::RollbackTransaction { transaction } => {
            to_roll_back(memory, process, transaction)
        }
        Command::GetTransactionInformation { transaction } => {
            to_tell(memory, process, transaction)
        }
        Command::CloseHandle { label } => to_close(memory, process, label),
        Command::DuplicateHandle {
            label,
            process: from,
            source,
        } => to_duplicate(memory, process, label, from, source),
        Command::Exit => Ok(Routed::Handles(Labels::UnbindAll)),
        Command::CreateResourceManager { label, durability } => {
            to_make_manager(memory, process, label, durability)
        }
        Command::OpenResourceManager { label, guid } => {
            to_open_manager(memory, process, label, &guid)
        }
        Command::RecoverResourceManager { manager } => {
            to_recover_manager(memory, process, manager)
        }
        Command::GetNotificationResourceManager { manager } => to_take(memory, process, manager),
        Command::CreateEnlistment {
            label,
            manager,
            transaction,
            kind,
        } => to_enlist(memory, process, label, manager, transaction, kind),
        Command::OpenEnlistment {
            label,
            manager,
            guid,
        } => to_open_enlistment(memory, process, label, manager, &guid),
        Command::RecoverEnlistment { enlistment } => to_recover(memory, process, enlistment),
        Command::SetEnlistmentRecoveryInformation {
            enlistment,
            information,
        } => to_inform(memory, process, enlistment, information),
        Command::GetEnlistmentRecoveryInformation { enlistment } => {
            to_be_told(memory, process, enlistment)
        }
        Command::PrePrepareComplete { .. }
        | Command::PrepareComplete { .. }
        | Command::ReadOnlyEnlistment { .. }
        | Command::CommitComplete { .. }
        | Command::RollbackComplete { .. }
        | Command::SinglePhaseReject { .. }
        | Command::RollbackEnlistment { .. } => route_reply(memory, process, command),
        Command::PrePrepareEnlistment { enlistment } => {
            to_lead(memory, process, enlistment, SuperiorCall::PrePrepare)
        }
        Command::PrepareEnlistment { enlistment } => {
            to_lead(memory, process, enlistment, SuperiorCall::Prepare)
        }
        Command::CommitEnlistment { enlistment } => {
            to_lead(memory, process, enlistment, SuperiorCall::Commit)
        }
        Command::KvSet {
            transaction,
            key,
            value,
        } => match active(memory, process, transaction) {
            Ok(t) => Ok(Routed::Keys {
                who: Some(t.id),
                call: KvCall::Set { key, value },
            }),
            Err(refusal) => Err(refusal),
        },
        Command::KvUnset { transaction, key } => match active(memory, process, transaction) {
            Ok(t) => Ok(Routed::Keys {
                who: Some(t.id),
                call: KvCall::Unset { key },
            }),
            Err(refusal) => Err(refusal),
        },
        Command::KvGet { view, key } => match viewer(memory, process, view) {
            Ok(who) => Ok(Routed::Keys {
                who,
                call: KvCall::Get { key },
            }),
            Err(refusal) => Err(refusal),
        },
        Command::KvList { view } => match viewer(memory, process, view) {
            Ok(who) => Ok(Routed::Keys {
                who,
                call: KvCall::List,
            }),
            Err(refusal) => Err(refusal),
        },
        Command::CreateFile { .. }
        | Command::DeleteFile { .. }
        | Command::CreateDirectory { .. }
        | Command::RemoveDirectory { .. }
        | Command::MoveFile { .. }
        | Command::FindFiles { .. } => route_path(memory, process, command),
        Command::WriteFile { .. }
        | Command::SetEndOfFile { .. }
        | Command::GetFileSizeEx { .. }
        | Command::FlushFileBuffers { .. } => route_open(memory, alloc, process, command),
        Command::ReadFile { .. } | Command::WriteUnits { .. } => unreachable!(),
        Command::CreateFileTransacted { .. }
        | Command::DeleteFileTransacted { .. }
        | Command::CreateDirectoryTransacted { .. }
        | Command::RemoveDirectoryTransacted { .. }
        | Command::MoveFileTransacted { .. }
        | Command::FindFilesTransacted { .. } => { route_transacted(memory, process, command) }
    }
}
