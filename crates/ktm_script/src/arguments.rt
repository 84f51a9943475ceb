// What stands behind the name of a command, where nothing follows it.
ghost use Rattle.std.specs.Prelude.{◌≡◌};
ghost use Rattle.ktm_codec.specs.Guid.{guid_at};
ghost use Rattle.ktm_script.specs.Reading.{Gives, arguments_at, behind_space, label_at, text_at, whole, ◌&◌};
ghost use Rattle.ktm_script.specs.declared.form.Form.TheVariants as form;

use crate::LineFault::{self, BadLine};
use crate::parts::{
    end, read_bytes, read_count, read_durability, read_kind_in_transaction, read_label,
    read_last_guid, read_modes, read_process, read_size, read_text, read_view,
};
use ktm_base::{Label, Text};
use ktm_codec::strip_word;
use ktm_world::Command;
use std::alloc::Global;
use uuid::Uuid;

pub fn one_label(arguments: &[u8]) -> Option<Label>
    ensures { result ≡ whole label_at arguments.now }
{
    let (label, rest) = read_label(arguments)?;
    end(rest)?;
    Some(label)
}

pub fn label_and_guid(arguments: &[u8]) -> Option<(Label, Uuid)>
    ensures { result ≡ whole (label_at & behind_space guid_at) arguments.now }
{
    let (label, rest) = read_label(arguments)?;
    let guid = read_last_guid(rest)?;
    Some((label, guid))
}

pub fn one_text(alloc: Global, arguments: &[u8]) -> Result<Text, LineFault>
    ensures { Gives result (whole text_at arguments.now) }
{
    let (text, rest) = read_text(alloc, arguments)?;
    end(rest).ok_or(BadLine)?;
    Ok(text)
}

pub fn text_and_label(alloc: Global, arguments: &[u8]) -> Result<(Text, Label), LineFault>
    ensures { Gives result (whole (text_at & label_at) arguments.now) }
{
    let (text, rest) = read_text(alloc, arguments)?;
    let (label, rest) = read_label(rest).ok_or(BadLine)?;
    end(rest).ok_or(BadLine)?;
    Ok((text, label))
}

pub fn create_transaction(arguments: &[u8]) -> Option<Command>
    ensures { result ≡ arguments_at form.CreateTransaction arguments.now }
{
    let (label, rest) = read_label(arguments)?;
    let (timeout, rest) = read_count(u64::from(u32::MAX), rest)?;
    end(rest)?;
    Some(Command::CreateTransaction {
        label,
        timeout: timeout as u32,
    })
}

pub fn create_resource_manager(arguments: &[u8]) -> Option<Command>
    ensures { result ≡ arguments_at form.CreateResourceManager arguments.now }
{
    let (label, rest) = read_label(arguments)?;
    let (durability, rest) = read_durability(rest)?;
    end(rest)?;
    Some(Command::CreateResourceManager { label, durability })
}

pub fn create_enlistment(arguments: &[u8]) -> Option<Command>
    ensures { result ≡ arguments_at form.CreateEnlistment arguments.now }
{
    let (label, rest) = read_label(arguments)?;
    let (manager, rest) = read_label(rest)?;
    let (transaction, kind, rest) = read_kind_in_transaction(rest)?;
    end(rest)?;
    Some(Command::CreateEnlistment {
        label,
        manager,
        transaction,
        kind,
    })
}

pub fn open_enlistment(arguments: &[u8]) -> Option<Command>
    ensures { result ≡ arguments_at form.OpenEnlistment arguments.now }
{
    let (label, rest) = read_label(arguments)?;
    let (manager, guid) = label_and_guid(rest)?;
    Some(Command::OpenEnlistment {
        label,
        manager,
        guid,
    })
}

pub fn set_recovery_information(alloc: Global, arguments: &[u8]) -> Result<Command, LineFault>
    ensures { Gives result (arguments_at form.SetEnlistmentRecoveryInformation arguments.now) }
{
    let (enlistment, rest) = read_label(arguments).ok_or(BadLine)?;
    let (information, rest) = read_bytes(alloc, rest)?;
    end(rest).ok_or(BadLine)?;
    Ok(Command::SetEnlistmentRecoveryInformation {
        enlistment,
        information,
    })
}

pub fn create_file(alloc: Global, arguments: &[u8]) -> Result<Command, LineFault>
    ensures { Gives result (arguments_at form.CreateFile arguments.now) }
{
    let (label, rest) = read_label(arguments).ok_or(BadLine)?;
    let (path, rest) = read_text(alloc, rest)?;
    let (access, share, disposition, rest) = read_modes(rest).ok_or(BadLine)?;
    end(rest).ok_or(BadLine)?;
    Ok(Command::CreateFile {
        label,
        path,
        access,
        share,
        disposition,
    })
}

pub fn create_file_transacted(alloc: Global, arguments: &[u8]) -> Result<Command, LineFault>
    ensures { Gives result (arguments_at form.CreateFileTransacted arguments.now) }
{
    let (label, rest) = read_label(arguments).ok_or(BadLine)?;
    let (path, rest) = read_text(alloc, rest)?;
    let (access, share, disposition, rest) = read_modes(rest).ok_or(BadLine)?;
    let transaction = one_label(rest).ok_or(BadLine)?;
    Ok(Command::CreateFileTransacted {
        label,
        path,
        access,
        share,
        disposition,
        transaction,
    })
}

pub fn read_file(arguments: &[u8]) -> Option<Command>
    ensures { result ≡ arguments_at form.ReadFile arguments.now }
{
    let (file, rest) = read_label(arguments)?;
    let (offset, rest) = read_size(rest)?;
    let (length, rest) = read_size(rest)?;
    end(rest)?;
    Some(Command::ReadFile {
        file,
        offset,
        length,
    })
}

pub fn write_file(alloc: Global, arguments: &[u8]) -> Result<Command, LineFault>
    ensures { Gives result (arguments_at form.WriteFile arguments.now) }
{
    let (file, rest) = read_label(arguments).ok_or(BadLine)?;
    let (offset, rest) = read_size(rest).ok_or(BadLine)?;
    let (bytes, rest) = read_bytes(alloc, rest)?;
    end(rest).ok_or(BadLine)?;
    Ok(Command::WriteFile {
        file,
        offset,
        bytes,
    })
}

pub fn set_end_of_file(arguments: &[u8]) -> Option<Command>
    ensures { result ≡ arguments_at form.SetEndOfFile arguments.now }
{
    let (file, rest) = read_label(arguments)?;
    let (size, rest) = read_size(rest)?;
    end(rest)?;
    Some(Command::SetEndOfFile { file, size })
}

pub fn move_file(alloc: Global, arguments: &[u8]) -> Result<Command, LineFault>
    ensures { Gives result (arguments_at form.MoveFile arguments.now) }
{
    let (source, rest) = read_text(alloc, arguments)?;
    let target = one_text(alloc, rest)?;
    Ok(Command::MoveFile { source, target })
}

pub fn move_file_transacted(alloc: Global, arguments: &[u8]) -> Result<Command, LineFault>
    ensures { Gives result (arguments_at form.MoveFileTransacted arguments.now) }
{
    let (source, rest) = read_text(alloc, arguments)?;
    let (target, transaction) = text_and_label(alloc, rest)?;
    Ok(Command::MoveFileTransacted {
        source,
        target,
        transaction,
    })
}

pub fn kv_set(alloc: Global, arguments: &[u8]) -> Result<Command, LineFault>
    ensures { Gives result (arguments_at form.KvSet arguments.now) }
{
    let (transaction, rest) = read_label(arguments).ok_or(BadLine)?;
    let (key, rest) = read_text(alloc, rest)?;
    let (value, rest) = read_bytes(alloc, rest)?;
    end(rest).ok_or(BadLine)?;
    Ok(Command::KvSet {
        transaction,
        key,
        value,
    })
}

pub fn kv_unset(alloc: Global, arguments: &[u8]) -> Result<Command, LineFault>
    ensures { Gives result (arguments_at form.KvUnset arguments.now) }
{
    let (transaction, rest) = read_label(arguments).ok_or(BadLine)?;
    let key = one_text(alloc, rest)?;
    Ok(Command::KvUnset { transaction, key })
}

pub fn kv_get(alloc: Global, arguments: &[u8]) -> Result<Command, LineFault>
    ensures { Gives result (arguments_at form.KvGet arguments.now) }
{
    let (view, rest) = read_view(arguments).ok_or(BadLine)?;
    let key = one_text(alloc, rest)?;
    Ok(Command::KvGet { view, key })
}

pub fn kv_list(arguments: &[u8]) -> Option<Command>
    ensures { result ≡ arguments_at form.KvList arguments.now }
{
    let (view, rest) = read_view(arguments)?;
    end(rest)?;
    Some(Command::KvList { view })
}

pub fn duplicate_handle(arguments: &[u8]) -> Option<Command>
    ensures { result ≡ arguments_at form.DuplicateHandle arguments.now }
{
    let (label, rest) = read_label(arguments)?;
    let (process, rest) = read_process(strip_word(rest, b" ")?)?;
    let source = one_label(rest)?;
    Some(Command::DuplicateHandle {
        label,
        process,
        source,
    })
}
