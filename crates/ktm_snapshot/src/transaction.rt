// Transactions that are not over.
ghost use Rattle.std.specs.Prelude.{◌≡◌, ◌+◌, ◌≤◌, IfOk, IfSome, length, option_map, vec_len, vec_capacity};
ghost use Rattle.ktm_codec.specs.Spans.{Adds, Reads};
ghost use Rattle.ktm_event.specs.Reading.{Gives};
ghost use Rattle.ktm_event.specs.Spelling.{IsSpellableId, IsSpellableRecord};
ghost use Rattle.ktm_snapshot.specs.Shown.{IsBegunOf, superior_of};
ghost use Rattle.ktm_snapshot.specs.Sizes.{start_size, superior_size};
ghost use Rattle.ktm_snapshot.specs.StateGrammar.{IsStageOf, IsStartOf, IsSuperiorOf, IsTransactionOf};

use crate::part::marked_at;
use ktm_base::{Id, NoMemory};
use ktm_codec::{put_u8, put_u32, u8_at, u32_at};
use ktm_event::{EventFault, put_id, put_record, read_id, record_at};
use ktm_world::{Recorded, Stage, Superior};
use std::alloc::Global;

const READY: u8 = 0;

const HELD: u8 = 1;

const DECIDED: u8 = 2;

const NO_SUPERIOR: u8 = 0;

const SUPERIOR: u8 = 1;

/// The superior of a transaction, whose recovery information is shown where it stands.
#[derive(Clone, Copy)]
pub struct ShownSuperior<'a> {
    pub enlistment: Id,
    pub manager: Id,
    pub information: &'a [u8],
}

fn stage_at(bytes: &[u8], at: usize) -> Option<(Stage, usize)>
    ensures { Reads IsStageOf bytes.now at result }
{
    let (tag, end) = u8_at(bytes, at)?;
    match tag {
        READY => Some((Stage::Ready, end)),
        HELD => Some((Stage::Held, end)),
        DECIDED => Some((Stage::Decided, end)),
        _ => None,
    }
}

fn superior_at(
    alloc: Global,
    bytes: &[u8],
    at: usize,
) -> Result<(Option<Superior>, usize), EventFault>
    ensures { Gives IsSuperiorOf bytes.now at result }
{
    let Some((tag, after)) = u8_at(bytes, at) else {
        return Err(EventFault::NotAnEvent);
    };
    match tag {
        NO_SUPERIOR => Ok((None, after)),
        SUPERIOR => {
            let ((enlistment, manager, information), end) = record_at(alloc, bytes, after)?;
            let superior = Superior {
                enlistment,
                manager,
                information,
            };
            Ok((Some(superior), end))
        }
        _ => Err(EventFault::NotAnEvent),
    }
}

// The Id, the stage, the superior, and how many parts there are.
fn start_at(
    alloc: Global,
    bytes: &[u8],
    at: usize,
) -> Result<((Id, Stage, Option<Superior>, u32), usize), EventFault>
    ensures { Gives IsBegunOf bytes.now at result }
{
    let Some((id, after)) = read_id(bytes, at) else {
        return Err(EventFault::NotAnEvent);
    };
    let Some((stage, after)) = stage_at(bytes, after) else {
        return Err(EventFault::NotAnEvent);
    };
    let (superior, after) = superior_at(alloc, bytes, after)?;
    let Some((count, end)) = u32_at(bytes, after) else {
        return Err(EventFault::NotAnEvent);
    };
    Ok(((id, stage, superior, count), end))
}

fn read_transaction(alloc: Global, bytes: &[u8], at: usize) -> Result<(Recorded, usize), EventFault>
    ensures { Gives IsTransactionOf bytes.now at result }
{
    let ((id, stage, superior, count), start) = start_at(alloc, bytes, at)?;
    let mut parts = Vec::new(alloc);
    let mut end = start;
    'parts: for _ in 0..count {
        let (part, next) = marked_at(alloc, bytes, end)?;
        parts.push(part)?;
        end = next;
    }
    let transaction = Recorded {
        id,
        stage,
        superior,
        parts,
    };
    Ok((transaction, end))
}

/// The transaction at a place, with its parts, and the place behind it.
pub fn transaction_at(
    alloc: Global,
    bytes: &[u8],
    at: usize,
) -> Result<Option<(Recorded, usize)>, NoMemory>
    ensures { IfOk result (λ read. Reads IsTransactionOf bytes.now at read) }
{
    match read_transaction(alloc, bytes, at) {
        Ok(read) => Ok(Some(read)),
        Err(EventFault::NotAnEvent) => Ok(None),
        Err(EventFault::NoMemory) => Err(NoMemory),
    }
}

fn put_stage(out: &mut Vec<u8>, stage: Stage)
    requires { vec_len out.old + 1 ≤ vec_capacity out.old }
    ensures adds { Adds (IsStageOf stage) out.old.items out.new.items }
    ensures len { vec_len out.new ≡ vec_len out.old + 1 }
    ensures room { vec_capacity out.old ≤ vec_capacity out.new }
{
    match stage {
        Stage::Ready => put_u8(out, READY),
        Stage::Held => put_u8(out, HELD),
        Stage::Decided => put_u8(out, DECIDED),
    }
}

fn put_superior(out: &mut Vec<u8>, superior: Option<ShownSuperior<'_>>)
    requires superior { IfSome superior (λ s. IsSpellableRecord s.enlistment s.manager s.information.now) }
    requires room { vec_len out.old + superior_size (option_map superior_of superior) ≤ vec_capacity out.old }
    ensures adds { Adds (IsSuperiorOf (option_map superior_of superior.entry)) out.old.items out.new.items }
    ensures len { vec_len out.new ≡ vec_len out.old + superior_size (option_map superior_of superior.entry) }
    ensures room { vec_capacity out.old ≤ vec_capacity out.new }
{
    match superior {
        Some(superior) => {
            put_u8(out, SUPERIOR);
            put_record(
                out,
                superior.enlistment,
                superior.manager,
                superior.information,
            )
            .unwrap();
        }
        None => put_u8(out, NO_SUPERIOR),
    }
}

/// Writes what a transaction begins with at the end: its Id, its stage, its superior, and how many parts are to be written
/// behind it. It takes no memory.
pub fn put_transaction(
    out: &mut Vec<u8>,
    id: Id,
    stage: Stage,
    superior: Option<ShownSuperior<'_>>,
    count: u32,
)
    requires id { IsSpellableId id }
    requires superior { IfSome superior (λ s. IsSpellableRecord s.enlistment s.manager s.information.now) }
    requires room { vec_len out.old + start_size (option_map superior_of superior) ≤ vec_capacity out.old }
    ensures adds { Adds (IsStartOf id stage (option_map superior_of superior.entry) count) out.old.items out.new.items }
    ensures len { vec_len out.new ≡ vec_len out.old + start_size (option_map superior_of superior.entry) }
    ensures room { vec_capacity out.old ≤ vec_capacity out.new }
{
    put_id(out, id);
    put_stage(out, stage);
    put_superior(out, superior);
    put_u32(out, count);
}
