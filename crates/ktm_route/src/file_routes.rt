// Calls on files, once their labels are known.
ghost use Rattle.std.specs.Prelude.{◌≡◌, ℕ, Bool, true, [], Some, None, IfOk, IfErr, is_some};
ghost use Rattle.ktm_base.specs.declared.refusal.Refusal.TheVariants.{InvalidParameter};
ghost use Rattle.ktm_standing.specs.Standing.{IsStandingNow};
ghost use Rattle.ktm_laws.specs.Running.{HasEventsLeft};
ghost use Rattle.ktm_memory.specs.Memory.{present_of};
ghost use Rattle.ktm_memory.specs.Rules.{PutsBy};
ghost use Rattle.ktm_memory.specs.Units.{AreUnits};
ghost use Rattle.ktm_route.specs.Route.{AskedPutsBy, NeedsNoBytes, OfNamed, Routes, is_on_open_file, is_on_path, is_transacted};
ghost use Rattle.ktm_route.specs.declared.asked.Asked.TheVariants.{Units as PutUnits};
ghost use Rattle.ktm_world.specs.declared.command.Command.TheVariants.{WriteUnits};
ghost use Rattle.ktm_memory.specs.declared.routed.Routed.TheVariants.{Files as OfFiles};
ghost use Rattle.ktm_world.specs.Values.{IsGiven};
ghost use Rattle.ktm_world.specs.declared.object.Transaction.{Transaction as Named};
ghost use Rattle.ktm_world.specs.Handles.{object_at};
ghost use Rattle.ktm_world.specs.Labels.{transaction_named, transaction_tests};
ghost use Rattle.ktm_world.specs.Outcome.{first_refusal};

use crate::labels::{active, object_at, open_file};
use ktm_base::{Bytes, Id, Label, Pid, Refusal};
use ktm_content::{Content, Placed};
use ktm_memory::{Extent, Memory, Routed};
use ktm_standing::law_of_files;
use ktm_world::Command;
use std::alloc::Global;
use txf_calls::FileCall;

// A call on files whose labels are known.
fn of_files(who: Option<Id>, call: FileCall) -> Routed
    ensures { result ≡ OfFiles who None call }
{
    Routed::Files {
        who,
        label: None,
        call,
    }
}

// A call that opens a file, whose label is not bound.
pub(crate) fn to_open_file(
    memory: &Memory,
    process: Pid,
    label: Label,
    who: Option<Id>,
    call: FileCall,
) -> Result<Routed, Refusal>
    ensures ok { IfOk result (λ routed. (routed ≡ OfFiles who (Some label) call) × (object_at memory.now.handles.handles process label ≡ None)) }
    ensures err { IfErr result (λ refusal. (refusal ≡ InvalidParameter) × (is_some (object_at memory.now.handles.handles process label) ≡ true)) }
{
    if object_at(memory, process, label).is_some() {
        return Err(Refusal::InvalidParameter);
    }
    Ok(Routed::Files {
        who,
        label: Some(label),
        call,
    })
}

// A call in an active transaction.
pub(crate) fn to_transacted(
    memory: &Memory,
    process: Pid,
    transaction: Label,
    call: FileCall,
) -> Result<Routed, Refusal>
    ensures ok { IfOk result (λ routed. (t : Named) × (transaction_named (present_of memory.now) process transaction ≡ Some t) × (first_refusal (transaction_tests (Some t)) ≡ None) × (routed ≡ OfFiles (Some t.id) None call)) }
    ensures err { IfErr result (λ refusal. first_refusal (transaction_tests (transaction_named (present_of memory.now) process transaction)) ≡ Some refusal) }
{
    match active(memory, process, transaction) {
        Ok(t) => Ok(of_files(Some(t.id), call)),
        Err(refusal) => Err(refusal),
    }
}

// The places of no bytes.
fn no_places(alloc: Global, bytes: Bytes) -> Placed
    requires { bytes ≡ [] }
    ensures { result ≡ bytes }
{
    Placed::new(Content::new(alloc))
}

// A put of whole units into an open file, recorded by their extent.
pub(crate) fn to_units(
    memory: &Memory,
    process: Pid,
    file: Label,
    start: u64,
    contents: Placed,
    extent: Extent,
) -> Result<Routed, Refusal>
    requires up { memory.now.is_up ≡ true }
    requires command { IsGiven (WriteUnits file start contents) }
    requires units { OfNamed (present_of memory.now) process file (λ seen. AreUnits seen start contents extent) }
    requires standing { IsStandingNow (present_of memory.now) }
    requires counts { HasEventsLeft (present_of memory.now) }
    ensures routes { Routes (present_of memory.now) process (WriteUnits file start contents) result }
    ensures puts { (rule : ℕ → ℕ → ℕ → Bool) → AskedPutsBy (present_of memory.now) rule (PutUnits process file start contents extent) → IfOk result (PutsBy rule) }
{
    law_of_files();
    let file = open_file(memory, process, file)?;
    Ok(Routed::Units {
        who: file.transaction,
        file,
        start,
        contents,
        extent,
    })
}

// A call on an open file, of the transaction in which it is open.
pub(crate) fn route_open(
    memory: &Memory,
    alloc: Global,
    process: Pid,
    command: Command,
) -> Result<Routed, Refusal>
    requires up { memory.now.is_up ≡ true }
    requires command { IsGiven command }
    requires bytes { NeedsNoBytes (present_of memory.now) process command }
    requires open { is_on_open_file command ≡ true }
    requires standing { IsStandingNow (present_of memory.now) }
    requires counts { HasEventsLeft (present_of memory.now) }
    ensures { Routes (present_of memory.now) process command result }
{
    law_of_files();
    match command {
        Command::WriteFile {
            file,
            offset,
            bytes,
        } => {
            let file = open_file(memory, process, file)?;
            let call = FileCall::Write {
                file,
                offset,
                bytes: no_places(alloc, bytes),
            };
            Ok(of_files(file.transaction, call))
        }
        Command::SetEndOfFile { file, size } => {
            let file = open_file(memory, process, file)?;
            Ok(of_files(file.transaction, FileCall::SetEnd { file, size }))
        }
        Command::GetFileSizeEx { file } => {
            let file = open_file(memory, process, file)?;
            Ok(of_files(file.transaction, FileCall::Size { file }))
        }
        Command::FlushFileBuffers { file } => {
            let file = open_file(memory, process, file)?;
            Ok(of_files(file.transaction, FileCall::Flush { file }))
        }
        _ => unreachable!(),
    }
}

// A call on a path, in a transaction.
pub(crate) fn route_transacted(
    memory: &Memory,
    process: Pid,
    command: Command,
) -> Result<Routed, Refusal>
    requires up { memory.now.is_up ≡ true }
    requires command { IsGiven command }
    requires transacted { is_transacted command ≡ true }
    requires standing { IsStandingNow (present_of memory.now) }
    requires counts { HasEventsLeft (present_of memory.now) }
    ensures { Routes (present_of memory.now) process command result }
{
    law_of_files();
    match command {
        Command::CreateFileTransacted {
            label,
            path,
            access,
            share,
            disposition,
            transaction,
        } => {
            let t = active(memory, process, transaction)?;
            let call = FileCall::Create {
                path,
                access,
                share,
                disposition,
            };
            to_open_file(memory, process, label, Some(t.id), call)
        }
        Command::DeleteFileTransacted { path, transaction } => {
            to_transacted(memory, process, transaction, FileCall::Delete { path })
        }
        Command::CreateDirectoryTransacted { path, transaction } => {
            to_transacted(
                memory,
                process,
                transaction,
                FileCall::MakeDirectory { path },
            )
        }
        Command::RemoveDirectoryTransacted { path, transaction } => {
            to_transacted(
                memory,
                process,
                transaction,
                FileCall::RemoveDirectory { path },
            )
        }
        Command::MoveFileTransacted {
            source,
            target,
            transaction,
        } => to_transacted(
            memory,
            process,
            transaction,
            FileCall::Move { source, target },
        ),
        Command::FindFilesTransacted {
            pattern,
            transaction,
        } => to_transacted(memory, process, transaction, FileCall::Find { pattern }),
        _ => unreachable!(),
    }
}

// A plain call on a path.
pub(crate) fn route_path(memory: &Memory, process: Pid, command: Command) -> Result<Routed, Refusal>
    requires up { memory.now.is_up ≡ true }
    requires command { IsGiven command }
    requires path { is_on_path command ≡ true }
    requires standing { IsStandingNow (present_of memory.now) }
    requires counts { HasEventsLeft (present_of memory.now) }
    ensures { Routes (present_of memory.now) process command result }
{
    law_of_files();
    match command {
        Command::CreateFile {
            label,
            path,
            access,
            share,
            disposition,
        } => {
            let call = FileCall::Create {
                path,
                access,
                share,
                disposition,
            };
            to_open_file(memory, process, label, None, call)
        }
        Command::DeleteFile { path } => Ok(of_files(None, FileCall::Delete { path })),
        Command::CreateDirectory { path } => {
            Ok(of_files(None, FileCall::MakeDirectory { path }))
        }
        Command::RemoveDirectory { path } => {
            Ok(of_files(None, FileCall::RemoveDirectory { path }))
        }
        Command::MoveFile { source, target } => {
            Ok(of_files(None, FileCall::Move { source, target }))
        }
        Command::FindFiles { pattern } => Ok(of_files(None, FileCall::Find { pattern })),
        _ => unreachable!(),
    }
}
