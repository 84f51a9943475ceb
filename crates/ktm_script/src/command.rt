// Commands.
ghost use Rattle.ktm_script.specs.Reading.{Gives, arguments_at, command_at};

use crate::LineFault::{self, BadLine};
use crate::arguments::{
    create_enlistment, create_file, create_file_transacted, create_resource_manager,
    create_transaction, duplicate_handle, kv_get, kv_list, kv_set, kv_unset, label_and_guid,
    move_file, move_file_transacted, one_label, one_text, open_enlistment, read_file,
    set_end_of_file, set_recovery_information, text_and_label, write_file,
};
use crate::form::{Form, read_form};
use crate::parts::end;
use ktm_world::Command;
use std::alloc::Global;

// A command of one label, which is this field.
macro_rules! of_label {
    ($text:ident, $form:ident, $field:ident) => {{
        let $field = one_label($text).ok_or(BadLine)?;
        Ok(Command::$form { $field })
    }};
}

// A command of a new label and a GUID.
macro_rules! of_label_and_guid {
    ($text:ident, $form:ident) => {{
        let (label, guid) = label_and_guid($text).ok_or(BadLine)?;
        Ok(Command::$form { label, guid })
    }};
}

// A command of one text, which is this field.
macro_rules! of_text {
    ($alloc:ident, $text:ident, $form:ident, $field:ident) => {{
        let $field = one_text($alloc, $text)?;
        Ok(Command::$form { $field })
    }};
}

// A command of a text, which is this field, and a transaction.
macro_rules! in_transaction {
    ($alloc:ident, $text:ident, $form:ident, $field:ident) => {{
        let ($field, transaction) = text_and_label($alloc, $text)?;
        Ok(Command::$form {
            $field,
            transaction,
        })
    }};
}

// A command of this form, by what stands behind the form's name.
fn with_arguments(alloc: Global, form: Form, text: &[u8]) -> Result<Command, LineFault>
    ensures { Gives result (arguments_at form text.now) }
{
    match form {
        Form::CreateTransaction => create_transaction(text).ok_or(BadLine),
        Form::OpenTransaction => of_label_and_guid!(text, OpenTransaction),
        Form::CommitTransaction => of_label!(text, CommitTransaction, transaction),
        Form::RollbackTransaction => of_label!(text, RollbackTransaction, transaction),
        Form::GetTransactionInformation => of_label!(text, GetTransactionInformation, transaction),
        Form::CreateResourceManager => create_resource_manager(text).ok_or(BadLine),
        Form::OpenResourceManager => of_label_and_guid!(text, OpenResourceManager),
        Form::RecoverResourceManager => of_label!(text, RecoverResourceManager, manager),
        Form::GetNotificationResourceManager => of_label!(
            text,
            GetNotificationResourceManager,
            manager
        ),
        Form::CreateEnlistment => create_enlistment(text).ok_or(BadLine),
        Form::OpenEnlistment => open_enlistment(text).ok_or(BadLine),
        Form::RecoverEnlistment => of_label!(text, RecoverEnlistment, enlistment),
        Form::PrePrepareComplete => of_label!(text, PrePrepareComplete, enlistment),
        Form::PrepareComplete => of_label!(text, PrepareComplete, enlistment),
        Form::ReadOnlyEnlistment => of_label!(text, ReadOnlyEnlistment, enlistment),
        Form::CommitComplete => of_label!(text, CommitComplete, enlistment),
        Form::RollbackComplete => of_label!(text, RollbackComplete, enlistment),
        Form::SinglePhaseReject => of_label!(text, SinglePhaseReject, enlistment),
        Form::RollbackEnlistment => of_label!(text, RollbackEnlistment, enlistment),
        Form::PrePrepareEnlistment => of_label!(text, PrePrepareEnlistment, enlistment),
        Form::PrepareEnlistment => of_label!(text, PrepareEnlistment, enlistment),
        Form::CommitEnlistment => of_label!(text, CommitEnlistment, enlistment),
        Form::SetEnlistmentRecoveryInformation => set_recovery_information(alloc, text),
        Form::GetEnlistmentRecoveryInformation => of_label!(
            text,
            GetEnlistmentRecoveryInformation,
            enlistment
        ),
        Form::CreateFile => create_file(alloc, text),
        Form::CreateFileTransacted => create_file_transacted(alloc, text),
        Form::ReadFile => read_file(text).ok_or(BadLine),
        Form::WriteFile => write_file(alloc, text),
        Form::SetEndOfFile => set_end_of_file(text).ok_or(BadLine),
        Form::GetFileSizeEx => of_label!(text, GetFileSizeEx, file),
        Form::FlushFileBuffers => of_label!(text, FlushFileBuffers, file),
        Form::DeleteFile => of_text!(alloc, text, DeleteFile, path),
        Form::CreateDirectory => of_text!(alloc, text, CreateDirectory, path),
        Form::RemoveDirectory => of_text!(alloc, text, RemoveDirectory, path),
        Form::MoveFile => move_file(alloc, text),
        Form::DeleteFileTransacted => in_transaction!(alloc, text, DeleteFileTransacted, path),
        Form::CreateDirectoryTransacted => in_transaction!(
            alloc,
            text,
            CreateDirectoryTransacted,
            path
        ),
        Form::RemoveDirectoryTransacted => in_transaction!(
            alloc,
            text,
            RemoveDirectoryTransacted,
            path
        ),
        Form::MoveFileTransacted => move_file_transacted(alloc, text),
        Form::FindFiles => of_text!(alloc, text, FindFiles, pattern),
        Form::FindFilesTransacted => in_transaction!(alloc, text, FindFilesTransacted, pattern),
        Form::KvSet => kv_set(alloc, text),
        Form::KvUnset => kv_unset(alloc, text),
        Form::KvGet => kv_get(alloc, text),
        Form::KvList => kv_list(text).ok_or(BadLine),
        Form::CloseHandle => of_label!(text, CloseHandle, label),
        Form::DuplicateHandle => duplicate_handle(text).ok_or(BadLine),
        Form::Exit => {
            end(text).ok_or(BadLine)?;
            Ok(Command::Exit)
        }
    }
}

// A command behind a space.
#[tactic(auto, unfolding(crate::specs::Reading::command_at))]
pub fn command(alloc: Global, text: &[u8]) -> Result<Command, LineFault>
    ensures { Gives result (command_at text.now) }
{
    let (form, rest) = read_form(text).ok_or(BadLine)?;
    with_arguments(alloc, form, rest)
}
