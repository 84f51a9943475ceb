// Deciding what is asked.
ghost use Rattle.std.specs.Prelude.{◌≡◌, ◌+◌, ◌≤◌, true, false, [], IfOk, IsOk, OnErr, sum_by};
ghost use Rattle.ktm_standing.specs.Standing.{IsStandingNow};
ghost use Rattle.ktm_event.specs.Kept.{Holds};
ghost use Rattle.ktm_laws.specs.Running.{HasEventsLeft};
ghost use Rattle.ktm_memory.specs.Decided.{Decides};
ghost use Rattle.ktm_memory.specs.Memory.{IsRoomy, held, present_of};
ghost use Rattle.ktm_memory.specs.Routed.{IsReadyFor};
ghost use Rattle.ktm_memory.specs.Rules.{KeepsRules, PutsBy};
ghost use Rattle.ktm_memory.specs.declared.settlement.Settlement.TheVariants.{Nothing};
ghost use Rattle.ktm_memory.specs.Takes.{routed_takes_memory};
ghost use Rattle.ktm_route.specs.Route.{AskedPutsBy, CanBeAsked, decided, routed_outcome};
ghost use Rattle.ktm_route.specs.Takes.{asked_takes_memory};
ghost use Rattle.ktm_slots.specs.Slots.{granted_in};
ghost use Rattle.ktm_world.specs.Sizes.{event_size};
ghost use Rattle.ktm_memory.specs.Held.{files_of};

use crate::file_routes::to_units;
use crate::route::route;
use ktm_base::{Label, NoMemory, Pid, Refusal};
use ktm_content::Placed;
use ktm_event::Events;
use ktm_memory::{Extent, Memory, Routed, Settlement};
use ktm_room::law_of_frames;
use ktm_standing::law_of_kept;
use ktm_world::{Command, Reply};
use std::alloc::Global;

/// What the machine is to decide.
#[derive(Drop)]
pub enum Asked {
    /// A process calls. It reads and writes no bytes of files, and makes no file longer: what is so in memory are the places of bytes.
    Call(Pid, Command),
    /// Whole units are put into the open file that a label of a process names, from the begin of one on, and recorded by their
    /// extent. So bytes are written, and so a file becomes longer.
    Units {
        process: Pid,
        file: Label,
        start: u64,
        contents: Placed,
        extent: Extent,
    },
    /// So many milliseconds pass.
    Tick(u32),
}

// What a call or a refusal comes to is decided.
fn decide_routed(
    memory: &mut Memory,
    alloc: Global,
    process: Pid,
    routed: Result<Routed, Refusal>,
    events: &mut Events,
    settlement: &mut Settlement,
) -> Result<Reply, NoMemory>
    requires up { memory.old.is_up ≡ true }
    requires standing { IsStandingNow (present_of memory.old) }
    requires ready { IfOk routed (IsReadyFor (present_of memory.old) process) }
    requires empty { Holds events.old [] }
    requires fits { sum_by event_size (routed_outcome (present_of memory.old) process routed).events ≤ events.old.spare }
    requires nothing { settlement.old ≡ Nothing }
    ensures ok { IfOk result (λ reply. Decides (held memory.old) (routed_outcome (present_of memory.old) process routed) reply settlement.new events.new memory.new) }
    ensures slots { IfOk result (λ reply. memory.old.tm.slots + granted_in (present_of memory.old) (routed_outcome (present_of memory.old) process routed) ≤ memory.new.tm.slots) }
    ensures grows { memory.old.tm.slots ≤ memory.new.tm.slots }
    ensures room { events.new.room ≡ events.old.room }
    ensures no_memory { OnErr result (held memory.new ≡ held memory.old) }
    ensures enough { IfOk routed (λ call. routed_takes_memory (present_of memory.old) call ≡ false) → IsOk result }
    ensures rules { IfOk result (λ reply. KeepsRules (λ rule. IfOk routed (PutsBy rule)) (files_of memory.old.files) (routed_outcome (present_of memory.old) process routed).events (files_of memory.new.files)) }
{
    match routed {
        Ok(call) => memory.decide_routed(alloc, process, call, events, settlement),
        Err(refusal) => Ok(Reply::Refused(refusal)),
    }
}

/// What is asked is decided: its reply, what is recorded of its events, which is put into the list, and what is left to do once
/// that is recorded, which takes the place of nothing. Nothing that is recorded changes before that. The list has room for its
/// events, whatever is left of the log.
pub fn decide(
    memory: &mut Memory,
    alloc: Global,
    asked: Asked,
    events: &mut Events,
    settlement: &mut Settlement,
) -> Result<Reply, NoMemory>
    requires up { memory.old.is_up ≡ true }
    requires asked { CanBeAsked (present_of memory.old) asked }
    requires standing { IsStandingNow (present_of memory.old) }
    requires counts { HasEventsLeft (present_of memory.old) }
    requires empty { Holds events.old [] }
    requires roomy { IsRoomy memory.old.journal events.old }
    requires nothing { settlement.old ≡ Nothing }
    ensures ok { IfOk result (λ reply. Decides (held memory.old) (decided (present_of memory.old) asked) reply settlement.new events.new memory.new) }
    ensures slots { IfOk result (λ reply. memory.old.tm.slots + granted_in (present_of memory.old) (decided (present_of memory.old) asked) ≤ memory.new.tm.slots) }
    ensures grows { memory.old.tm.slots ≤ memory.new.tm.slots }
    ensures room { events.new.room ≡ events.old.room }
    ensures no_memory { OnErr result (held memory.new ≡ held memory.old) }
    ensures enough { asked_takes_memory (present_of memory.old) asked ≡ false → IsOk result }
    ensures rules { IfOk result (λ reply. KeepsRules (λ rule. AskedPutsBy (present_of memory.old) rule asked) (files_of memory.old.files) (decided (present_of memory.old) asked).events (files_of memory.new.files)) }
{
    law_of_kept();
    law_of_frames();
    match asked {
        Asked::Call(process, command) => {
            let routed = route(memory, alloc, process, command);
            decide_routed(memory, alloc, process, routed, events, settlement)
        }
        Asked::Units {
            process,
            file,
            start,
            contents,
            extent,
        } => {
            let routed = to_units(memory, process, file, start, contents, extent);
            decide_routed(memory, alloc, process, routed, events, settlement)
        }
        Asked::Tick(ms) => Ok(memory.decide_tick(ms, events, settlement)),
    }
}
