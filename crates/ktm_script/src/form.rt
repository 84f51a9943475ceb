// The forms of commands, and their names.
ghost use Rattle.std.specs.Prelude.{◌≡◌, option_map};
ghost use Rattle.ktm_script.specs.Reading.{by_word, form_at, form_name, forms};
ghost use Rattle.ktm_script.specs.Lengths.{forms_of_length};

use crate::word::{Word, by_word};
use ktm_codec::{split_word, strip_word};

// What a command is without its values.
#[derive(Clone, Copy)]
pub enum Form {
    CreateTransaction,
    OpenTransaction,
    CommitTransaction,
    RollbackTransaction,
    GetTransactionInformation,
    CreateResourceManager,
    OpenResourceManager,
    RecoverResourceManager,
    GetNotificationResourceManager,
    CreateEnlistment,
    OpenEnlistment,
    RecoverEnlistment,
    PrePrepareComplete,
    PrepareComplete,
    ReadOnlyEnlistment,
    CommitComplete,
    RollbackComplete,
    SinglePhaseReject,
    RollbackEnlistment,
    PrePrepareEnlistment,
    PrepareEnlistment,
    CommitEnlistment,
    SetEnlistmentRecoveryInformation,
    GetEnlistmentRecoveryInformation,
    CreateFile,
    CreateFileTransacted,
    ReadFile,
    WriteFile,
    SetEndOfFile,
    GetFileSizeEx,
    FlushFileBuffers,
    DeleteFile,
    CreateDirectory,
    RemoveDirectory,
    MoveFile,
    DeleteFileTransacted,
    CreateDirectoryTransacted,
    RemoveDirectoryTransacted,
    MoveFileTransacted,
    FindFiles,
    FindFilesTransacted,
    KvSet,
    KvUnset,
    KvGet,
    KvList,
    CloseHandle,
    DuplicateHandle,
    Exit,
}

impl Word for Form {
    ghost spelled = { form_name };

    fn word(self) -> &'static [u8] {
        match self {
            Form::CreateTransaction => b"CreateTransaction",
            Form::OpenTransaction => b"OpenTransaction",
            Form::CommitTransaction => b"CommitTransaction",
            Form::RollbackTransaction => b"RollbackTransaction",
            Form::GetTransactionInformation => b"GetTransactionInformation",
            Form::CreateResourceManager => b"CreateResourceManager",
            Form::OpenResourceManager => b"OpenResourceManager",
            Form::RecoverResourceManager => b"RecoverResourceManager",
            Form::GetNotificationResourceManager => b"GetNotificationResourceManager",
            Form::CreateEnlistment => b"CreateEnlistment",
            Form::OpenEnlistment => b"OpenEnlistment",
            Form::RecoverEnlistment => b"RecoverEnlistment",
            Form::PrePrepareComplete => b"PrePrepareComplete",
            Form::PrepareComplete => b"PrepareComplete",
            Form::ReadOnlyEnlistment => b"ReadOnlyEnlistment",
            Form::CommitComplete => b"CommitComplete",
            Form::RollbackComplete => b"RollbackComplete",
            Form::SinglePhaseReject => b"SinglePhaseReject",
            Form::RollbackEnlistment => b"RollbackEnlistment",
            Form::PrePrepareEnlistment => b"PrePrepareEnlistment",
            Form::PrepareEnlistment => b"PrepareEnlistment",
            Form::CommitEnlistment => b"CommitEnlistment",
            Form::SetEnlistmentRecoveryInformation => b"SetEnlistmentRecoveryInformation",
            Form::GetEnlistmentRecoveryInformation => b"GetEnlistmentRecoveryInformation",
            Form::CreateFile => b"CreateFile",
            Form::CreateFileTransacted => b"CreateFileTransacted",
            Form::ReadFile => b"ReadFile",
            Form::WriteFile => b"WriteFile",
            Form::SetEndOfFile => b"SetEndOfFile",
            Form::GetFileSizeEx => b"GetFileSizeEx",
            Form::FlushFileBuffers => b"FlushFileBuffers",
            Form::DeleteFile => b"DeleteFile",
            Form::CreateDirectory => b"CreateDirectory",
            Form::RemoveDirectory => b"RemoveDirectory",
            Form::MoveFile => b"MoveFile",
            Form::DeleteFileTransacted => b"DeleteFileTransacted",
            Form::CreateDirectoryTransacted => b"CreateDirectoryTransacted",
            Form::RemoveDirectoryTransacted => b"RemoveDirectoryTransacted",
            Form::MoveFileTransacted => b"MoveFileTransacted",
            Form::FindFiles => b"FindFiles",
            Form::FindFilesTransacted => b"FindFilesTransacted",
            Form::KvSet => b"KvSet",
            Form::KvUnset => b"KvUnset",
            Form::KvGet => b"KvGet",
            Form::KvList => b"KvList",
            Form::CloseHandle => b"CloseHandle",
            Form::DuplicateHandle => b"DuplicateHandle",
            Form::Exit => b"exit",
        }
    }
}

// The forms whose names have so many characters.
fn forms_of_length(length: usize) -> &'static [Form]
    ensures { result.now ≡ forms_of_length length }
{
    match length {
        4 => &[Form::Exit],
        5 => &[Form::KvSet, Form::KvGet],
        6 => &[Form::KvList],
        7 => &[Form::KvUnset],
        8 => &[Form::ReadFile, Form::MoveFile],
        9 => &[Form::WriteFile, Form::FindFiles],
        10 => &[Form::CreateFile, Form::DeleteFile],
        11 => &[Form::CloseHandle],
        12 => &[Form::SetEndOfFile],
        13 => &[Form::GetFileSizeEx],
        14 => &[Form::OpenEnlistment, Form::CommitComplete],
        15 => &[
            Form::OpenTransaction,
            Form::PrepareComplete,
            Form::CreateDirectory,
            Form::RemoveDirectory,
            Form::DuplicateHandle,
        ],
        16 => &[
            Form::CreateEnlistment,
            Form::RollbackComplete,
            Form::CommitEnlistment,
            Form::FlushFileBuffers,
        ],
        17 => &[
            Form::CreateTransaction,
            Form::CommitTransaction,
            Form::RecoverEnlistment,
            Form::SinglePhaseReject,
            Form::PrepareEnlistment,
        ],
        18 => &[
            Form::PrePrepareComplete,
            Form::ReadOnlyEnlistment,
            Form::RollbackEnlistment,
            Form::MoveFileTransacted,
        ],
        19 => &[
            Form::RollbackTransaction,
            Form::OpenResourceManager,
            Form::FindFilesTransacted,
        ],
        20 => &[
            Form::PrePrepareEnlistment,
            Form::CreateFileTransacted,
            Form::DeleteFileTransacted,
        ],
        21 => &[Form::CreateResourceManager],
        22 => &[Form::RecoverResourceManager],
        25 => &[
            Form::GetTransactionInformation,
            Form::CreateDirectoryTransacted,
            Form::RemoveDirectoryTransacted,
        ],
        30 => &[Form::GetNotificationResourceManager],
        32 => &[
            Form::SetEnlistmentRecoveryInformation,
            Form::GetEnlistmentRecoveryInformation,
        ],
        _ => &[],
    }
}

// The form with this name.
#[tactic(auto, unfolding(crate::specs::Reading::by_word))]
fn form_named(name: &[u8]) -> Option<Form>
    ensures { result ≡ by_word form_name forms name.now }
{
    by_word(forms_of_length(name.len()), name)
}

// A form by its name behind a space, and what follows it.
#[tactic(auto, unfolding(crate::specs::Reading::form_at, crate::specs::Reading::one_of))]
pub fn read_form(text: &[u8]) -> Option<(Form, &[u8])>
    ensures { option_map (λ read. (read.0, read.1.now)) result ≡ form_at text.now }
{
    let (name, rest) = split_word(strip_word(text, b" ")?);
    Some((form_named(name)?, rest))
}
