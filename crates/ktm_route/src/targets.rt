// What of an open file is read, or is to be changed, by its label.
ghost use Rattle.std.specs.Prelude.{◌≡◌, ◌+◌, ◌≤◌, true, ℕ, List, drop, length, max, take, None, Some, IfErr, IfOk};
ghost use Rattle.ktm_standing.specs.Standing.{IsStandingNow};
ghost use Rattle.ktm_memory.specs.Memory.{present_of};
ghost use Rattle.ktm_route.specs.Targets.{MayBeSoLong};
ghost use Rattle.ktm_world.specs.declared.command.Command.TheVariants.{ReadFile, SetEndOfFile, WriteFile};
ghost use Rattle.ktm_world.specs.declared.reply.Reply.TheVariants.{Contents, Refused};
ghost use Rattle.ktm_world.specs.Decide.{decide, refusal_of};
ghost use Rattle.ktm_world.specs.Files.{OpenFile as FileNow, bytes_seen};
ghost use Rattle.ktm_world.specs.Labels.{file_named};
ghost use Rattle.ktm_world.specs.Outcome.{only_reply};
ghost use Rattle.ktm_memory.specs.Held.{files_of};

use crate::labels::open_file;
use ktm_base::{Id, Label, Pid, Refusal};
use ktm_content::PlacedRef;
use ktm_memory::Memory;
use ktm_standing::law_of_files;
use std::alloc::Global;
use txf_calls::{OpenFile, read_refusal, set_end_refusal, write_refusal};

/// What of an open file is to be changed.
#[derive(Drop)]
pub struct Target<'a> {
    /// The transaction in which it is open, if it is open in one.
    pub who: Option<Id>,
    /// The node.
    pub node: u64,
    /// The bytes that are seen: the place of each.
    pub contents: PlacedRef<'a>,
}

// What of an open file is to be changed.
fn target_of(memory: &Memory, file: OpenFile) -> Target<'_>
    ensures who { result.who ≡ file.transaction }
    ensures node { result.node ≡ file.node }
    ensures contents { result.contents ≡ bytes_seen (files_of memory.now.files) file.transaction file.node }
{
    Target {
        who: file.transaction,
        node: file.node,
        contents: memory.bytes_seen(file.transaction, file.node),
    }
}

/// The bytes that are seen of an open file, of which so many are read from any offset on, or why such a read is refused. It takes no
/// memory, and no byte is copied.
pub fn read_target(
    memory: &Memory,
    process: Pid,
    file: Label,
    length: u64,
) -> Result<PlacedRef<'_>, Refusal>
    requires up { memory.now.is_up ≡ true }
    ensures ok { IfOk result (λ seen. (offset : ℕ) → decide (present_of memory.now) process (ReadFile file offset length) ≡ only_reply (present_of memory.now) (Contents (take length (drop offset seen)))) }
    ensures named { IfOk result (λ seen. (o : FileNow) × (file_named (present_of memory.now) process file ≡ Some o) × (seen ≡ bytes_seen (present_of memory.now).files o.transaction o.node)) }
    ensures err { IfErr result (λ refusal. (offset : ℕ) → decide (present_of memory.now) process (ReadFile file offset length) ≡ only_reply (present_of memory.now) (Refused refusal)) }
{
    let file = open_file(memory, process, file)?;
    match read_refusal(file, length) {
        Some(refusal) => Err(refusal),
        None => Ok(memory.bytes_seen(file.transaction, file.node)),
    }
}

/// What of an open file is to be changed where so many bytes, at least one, are written at an offset, or why that is refused,
/// whatever the bytes are. It takes no memory.
pub fn write_target(
    memory: &Memory,
    alloc: Global,
    process: Pid,
    file: Label,
    offset: u64,
    len: u64,
) -> Result<Target<'_>, Refusal>
    requires up { memory.now.is_up ≡ true }
    requires standing { IsStandingNow (present_of memory.now) }
    requires some { 1 ≤ len }
    ensures ok { IfOk result (λ t. MayBeSoLong (present_of memory.now) process file (max (length t.contents) (offset + len)) t) }
    ensures passes { IfOk result (λ t. (bytes : List ℕ) → length bytes ≡ len → refusal_of (present_of memory.now) process (WriteFile file offset bytes) ≡ None) }
    ensures err { IfErr result (λ refusal. (bytes : List ℕ) → length bytes ≡ len → refusal_of (present_of memory.now) process (WriteFile file offset bytes) ≡ Some refusal) }
{
    law_of_files();
    let file = open_file(memory, process, file)?;
    let room = memory.file_room();
    match write_refusal(alloc, memory.files(), file, offset, len, &room) {
        Some(refusal) => Err(refusal),
        None => Ok(target_of(memory, file)),
    }
}

/// What of an open file is to be changed where it is made so long, or why that is refused. It takes no memory.
pub fn end_target(
    memory: &Memory,
    alloc: Global,
    process: Pid,
    file: Label,
    size: u64,
) -> Result<Target<'_>, Refusal>
    requires up { memory.now.is_up ≡ true }
    requires standing { IsStandingNow (present_of memory.now) }
    ensures ok { IfOk result (λ t. MayBeSoLong (present_of memory.now) process file size t) }
    ensures passes { IfOk result (λ t. refusal_of (present_of memory.now) process (SetEndOfFile file size) ≡ None) }
    ensures err { IfErr result (λ refusal. refusal_of (present_of memory.now) process (SetEndOfFile file size) ≡ Some refusal) }
{
    law_of_files();
    let file = open_file(memory, process, file)?;
    let room = memory.file_room();
    match set_end_refusal(alloc, memory.files(), file, size, &room) {
        Some(refusal) => Err(refusal),
        None => Ok(target_of(memory, file)),
    }
}
