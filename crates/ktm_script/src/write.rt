// Lines as they are written.
ghost use Rattle.std.specs.Prelude.{◌≡◌, ◌⊎◌, ◌++◌, ◌∷◌, IfOk, OnOk, Ok, Err, decimal};
ghost use Rattle.ktm_codec.specs.Guid.{guid_spelling};
ghost use Rattle.ktm_codec.specs.Quoted.{quoted};
ghost use Rattle.ktm_script.specs.Reading.{form_name};
ghost use Rattle.ktm_script.specs.Spelling.{IsLine, command_spelling, label_spelling, space, spelling, ◌␣◌};

use crate::LineFault;
use crate::form::Form;
use crate::line::read_line;
use crate::put::{
    put_bytes, put_count, put_guid_part, put_label, put_modes, put_modes_and_label, put_process,
    put_text, put_view,
};
use crate::word::put_word;
use ktm_base::{Bytes, Label, NoMemory, Text};
use ktm_world::{Command, Line};
use std::alloc::Global;
use uuid::Uuid;

fn put_one_label(out: &mut Vec<u8>, form: Form, label: Label) -> Result<(), NoMemory>
    ensures { OnOk result (out.new.items ≡ out.old.items ++ space ∷ (form_name form ␣ label_spelling label)) }
{
    put_word(out, form)?;
    put_label(out, label)
}

fn put_label_and_guid(
    out: &mut Vec<u8>,
    form: Form,
    label: Label,
    guid: &Uuid,
) -> Result<(), NoMemory>
    ensures { OnOk result (out.new.items ≡ out.old.items ++ space ∷ (form_name form ␣ label_spelling label ␣ guid_spelling guid.now)) }
{
    put_one_label(out, form, label)?;
    put_guid_part(out, guid)
}

fn put_label_and_count(
    out: &mut Vec<u8>,
    form: Form,
    label: Label,
    number: u64,
) -> Result<(), NoMemory>
    ensures { OnOk result (out.new.items ≡ out.old.items ++ space ∷ (form_name form ␣ label_spelling label ␣ decimal number)) }
{
    put_one_label(out, form, label)?;
    put_count(out, number)
}

fn put_label_and_text(
    out: &mut Vec<u8>,
    form: Form,
    label: Label,
    text: &Text,
) -> Result<(), NoMemory>
    ensures { OnOk result (out.new.items ≡ out.old.items ++ space ∷ (form_name form ␣ label_spelling label ␣ quoted text.now)) }
{
    put_one_label(out, form, label)?;
    put_text(out, text)
}

fn put_one_text(out: &mut Vec<u8>, form: Form, text: &Text) -> Result<(), NoMemory>
    ensures { OnOk result (out.new.items ≡ out.old.items ++ space ∷ (form_name form ␣ quoted text.now)) }
{
    put_word(out, form)?;
    put_text(out, text)
}

fn put_text_and_label(
    out: &mut Vec<u8>,
    form: Form,
    text: &Text,
    label: Label,
) -> Result<(), NoMemory>
    ensures { OnOk result (out.new.items ≡ out.old.items ++ space ∷ (form_name form ␣ quoted text.now ␣ label_spelling label)) }
{
    put_one_text(out, form, text)?;
    put_label(out, label)
}

// A match on a command: a form in a line where it is known by what stands behind its name, and then the others.
macro_rules! put_forms {
    ($out:ident, $command:ident,
        label { $($label_form:ident $label:ident,)* }
        label_and_guid { $($guid_form:ident,)* }
        text { $($text_form:ident $text:ident,)* }
        text_in_transaction { $($both_form:ident $both:ident,)* }
        others { $($pattern:pat => $put:expr,)* }
    ) => {
        match $command {
            $(Command::$label_form { $label } => put_one_label($out, Form::$label_form, *$label),)*
            $(Command::$guid_form { label, guid } => {
                put_label_and_guid($out, Form::$guid_form, *label, guid)
            })*
            $(Command::$text_form { $text } => put_one_text($out, Form::$text_form, $text),)*
            $(Command::$both_form { $both, transaction } => {
                put_text_and_label($out, Form::$both_form, $both, *transaction)
            })*
            $($pattern => $put,)*
        }
    };
}

// A command behind a space.
fn put_command(out: &mut Vec<u8>, command: &Command) -> Result<(), NoMemory>
    ensures { OnOk result (out.new.items ≡ out.old.items ++ space ∷ command_spelling command.now) }
{
    put_forms!(out, command,
        label {
            CommitTransaction transaction,
            RollbackTransaction transaction,
            GetTransactionInformation transaction,
            RecoverResourceManager manager,
            GetNotificationResourceManager manager,
            RecoverEnlistment enlistment,
            PrePrepareComplete enlistment,
            PrepareComplete enlistment,
            ReadOnlyEnlistment enlistment,
            CommitComplete enlistment,
            RollbackComplete enlistment,
            SinglePhaseReject enlistment,
            RollbackEnlistment enlistment,
            PrePrepareEnlistment enlistment,
            PrepareEnlistment enlistment,
            CommitEnlistment enlistment,
            GetEnlistmentRecoveryInformation enlistment,
            GetFileSizeEx file,
            FlushFileBuffers file,
            CloseHandle label,
        }
        label_and_guid {
            OpenTransaction,
            OpenResourceManager,
        }
        text {
            DeleteFile path,
            CreateDirectory path,
            RemoveDirectory path,
            FindFiles pattern,
        }
        text_in_transaction {
            DeleteFileTransacted path,
            CreateDirectoryTransacted path,
            RemoveDirectoryTransacted path,
            FindFilesTransacted pattern,
        }
        others {
            Command::CreateTransaction { label, timeout } => {
                put_label_and_count(out, Form::CreateTransaction, *label, u64::from(*timeout))
            },
            Command::CreateResourceManager { label, durability } => {
                put_one_label(out, Form::CreateResourceManager, *label)?;
                put_word(out, *durability)
            },
            Command::CreateEnlistment {
                label,
                manager,
                transaction,
                kind,
            } => {
                put_one_label(out, Form::CreateEnlistment, *label)?;
                put_label(out, *manager)?;
                put_label(out, *transaction)?;
                put_word(out, *kind)
            },
            Command::OpenEnlistment {
                label,
                manager,
                guid,
            } => {
                put_one_label(out, Form::OpenEnlistment, *label)?;
                put_label(out, *manager)?;
                put_guid_part(out, guid)
            },
            Command::SetEnlistmentRecoveryInformation {
                enlistment,
                information,
            } => {
                put_one_label(out, Form::SetEnlistmentRecoveryInformation, *enlistment)?;
                put_bytes(out, information)
            },
            Command::CreateFile {
                label,
                path,
                access,
                share,
                disposition,
            } => {
                put_label_and_text(out, Form::CreateFile, *label, path)?;
                put_modes(out, *access, *share, *disposition)
            },
            Command::CreateFileTransacted {
                label,
                path,
                access,
                share,
                disposition,
                transaction,
            } => {
                put_label_and_text(out, Form::CreateFileTransacted, *label, path)?;
                put_modes_and_label(out, *access, *share, *disposition, *transaction)
            },
            Command::ReadFile {
                file,
                offset,
                length,
            } => {
                put_label_and_count(out, Form::ReadFile, *file, *offset)?;
                put_count(out, *length)
            },
            Command::WriteFile {
                file,
                offset,
                bytes,
            } => {
                put_label_and_count(out, Form::WriteFile, *file, *offset)?;
                put_bytes(out, bytes)
            },
            Command::SetEndOfFile { file, size } => {
                put_label_and_count(out, Form::SetEndOfFile, *file, *size)
            },
            // no line spells it
            Command::WriteUnits { .. } => Ok(out.push(b' ')?),
            Command::MoveFile { source, target } => {
                put_one_text(out, Form::MoveFile, source)?;
                put_text(out, target)
            },
            Command::MoveFileTransacted {
                source,
                target,
                transaction,
            } => {
                put_one_text(out, Form::MoveFileTransacted, source)?;
                put_text(out, target)?;
                put_label(out, *transaction)
            },
            Command::KvSet {
                transaction,
                key,
                value,
            } => {
                put_label_and_text(out, Form::KvSet, *transaction, key)?;
                put_bytes(out, value)
            },
            Command::KvUnset { transaction, key } => {
                put_label_and_text(out, Form::KvUnset, *transaction, key)
            },
            Command::KvGet { view, key } => {
                put_word(out, Form::KvGet)?;
                put_view(out, *view)?;
                put_text(out, key)
            },
            Command::KvList { view } => {
                put_word(out, Form::KvList)?;
                put_view(out, *view)
            },
            Command::DuplicateHandle {
                label,
                process,
                source,
            } => {
                put_one_label(out, Form::DuplicateHandle, *label)?;
                out.push(b' ')?;
                put_process(out, *process)?;
                put_label(out, *source)
            },
            Command::Exit => put_word(out, Form::Exit),
        }
    )
}

// Puts the spelling of the line, without a newline.
fn put_line(out: &mut Vec<u8>, line: &Line) -> Result<(), NoMemory>
    ensures { OnOk result (out.new.items ≡ out.old.items ++ spelling line.now) }
{
    match line {
        Line::Tick(milliseconds) => {
            out.extend_from_slice(b"tick")?;
            put_count(out, u64::from(*milliseconds))
        }
        Line::Cut(calls) => {
            out.extend_from_slice(b"cut")?;
            put_count(out, *calls)
        }
        Line::Crash => Ok(out.extend_from_slice(b"crash")?),
        Line::Restart(seed) => {
            out.extend_from_slice(b"restart")?;
            put_count(out, *seed)
        }
        Line::Process(process, command) => {
            put_process(out, *process)?;
            put_command(out, command)
        }
    }
}

/// The spelling of the line, without a newline.
pub fn write_line(alloc: Global, line: &Line) -> Result<Bytes, NoMemory>
    ensures { IfOk result (λ bytes. bytes ≡ spelling line.now) }
{
    let mut bytes = Vec::new(alloc);
    put_line(&mut bytes, line)?;
    Ok(Bytes::new(bytes))
}

/// A line of the grammar that was written is read again as it was, unless memory runs out.
pub fn law_of_round_trip(alloc: Global, line: &Line) -> Result<Line, LineFault>
    ensures { IsLine line.now → (result ≡ Ok line.now) ⊎ (result ≡ Err LineFault.NoMemory) }
{
    let bytes = write_line(alloc, line)?;
    read_line(alloc, bytes.as_slice())
}
