// What is asked, by what it does to the debts of transactions, and whether it puts units.
ghost use Rattle.std.specs.Prelude.{◌≡◌};
ghost use Rattle.ktm_core.specs.Answers.{asked_completes, asked_owes_more, asked_writes};
ghost use Rattle.ktm_core.specs.Recording.{beside_of, is_refusal, may_rise};
ghost use Rattle.ktm_debts.specs.Debts.{may_owe_more, most_debts};

use ktm_memory::Memory;
use ktm_route::Asked;
use ktm_world::{Command, Reply};

/// How many bytes of the log the debts of all transactions are at most.
pub(crate) fn most_debts(memory: &Memory) -> u64
    ensures { result ≡ most_debts memory.now.journal.units }
{
    1536 * u64::from(memory.journal().units()) + 49152
}

// Does what is asked complete a transaction; so does time that passes.
fn completes(asked: &Asked) -> bool
    ensures { result ≡ asked_completes asked.now }
{
    match asked {
        Asked::Call(_, command) => command.completion().is_some(),
        Asked::Units { .. } => false,
        Asked::Tick(_) => true,
    }
}

// May the command raise the debts.
fn may_owe_more(command: &Command) -> bool
    ensures { result ≡ may_owe_more command.now }
{
    match command {
        Command::CreateTransaction { .. }
        | Command::CreateEnlistment { .. }
        | Command::CreateFileTransacted { .. }
        | Command::WriteFile { .. }
        | Command::SetEndOfFile { .. }
        | Command::WriteUnits { .. }
        | Command::DeleteFileTransacted { .. }
        | Command::CreateDirectoryTransacted { .. }
        | Command::RemoveDirectoryTransacted { .. }
        | Command::MoveFileTransacted { .. }
        | Command::KvSet { .. }
        | Command::KvUnset { .. } => true,
        _ => false,
    }
}

/// May what is asked raise the debts.
pub(crate) fn owes_more(asked: &Asked) -> bool
    ensures { result ≡ asked_owes_more asked.now }
{
    match asked {
        Asked::Call(_, command) => may_owe_more(command),
        Asked::Units { .. } => true,
        Asked::Tick(_) => false,
    }
}

/// How many bytes of the log are to stay beside what is recorded of what is asked: none where it completes a transaction, for which they
/// are kept, or else the greatest debts.
pub(crate) fn room_beside(memory: &Memory, asked: &Asked) -> u64
    ensures { result ≡ beside_of (asked_completes asked.now) memory.now.journal.units }
{
    if completes(asked) {
        0
    } else {
        most_debts(memory)
    }
}

/// Does what is asked put units.
pub(crate) fn writes(asked: &Asked) -> bool
    ensures { result ≡ asked_writes asked.now }
{
    match asked {
        Asked::Units { .. } => true,
        _ => false,
    }
}

/// Is it a refusal.
pub(crate) fn is_refusal(reply: &Reply) -> bool
    ensures { result ≡ is_refusal reply.now }
{
    match reply {
        Reply::Refused(_) => true,
        _ => false,
    }
}

/// May the debts have risen by what is asked: it may raise them, and was not refused.
pub(crate) fn may_rise(owing: bool, reply: &Reply) -> bool
    ensures { result ≡ may_rise owing reply.now }
{
    owing && !is_refusal(reply)
}
