// Parts of transactions, each with its mark, which says whether it is done.
ghost use Rattle.std.specs.Prelude.{◌≡◌, ◌+◌, ◌≤◌, true, vec_len, vec_capacity};
ghost use Rattle.ktm_codec.specs.Spans.{Adds, Reads};
ghost use Rattle.ktm_event.specs.Reading.{Gives};
ghost use Rattle.ktm_event.specs.Spelling.{IsSpellablePart};
ghost use Rattle.ktm_event.specs.Work.{part_of};
ghost use Rattle.ktm_world.specs.Sizes.{part_size};
ghost use Rattle.ktm_snapshot.specs.Works.{is_work, placed_part};
ghost use Rattle.ktm_snapshot.specs.StateGrammar.{IsMarkOf, IsMarkedOf};

use crate::works::placed_part;
use ktm_codec::{put_u8, u8_at};
use ktm_event::{
    EventFault, Work, WrittenFiles, part_at, put_enlistment, put_names_and_files_part,
    put_settings_part,
};
use ktm_world::RecordedPart;
use std::alloc::Global;

const NOT_DONE: u8 = 0;

const DONE: u8 = 1;

fn mark_at(bytes: &[u8], at: usize) -> Option<(bool, usize)>
    ensures { Reads IsMarkOf bytes.now at result }
{
    let (mark, end) = u8_at(bytes, at)?;
    match mark {
        NOT_DONE => Some((false, end)),
        DONE => Some((true, end)),
        _ => None,
    }
}

// The part at a place with its mark, and the place behind it.
pub(crate) fn marked_at(
    alloc: Global,
    bytes: &[u8],
    at: usize,
) -> Result<(RecordedPart, usize), EventFault>
    ensures { Gives IsMarkedOf bytes.now at result }
{
    let Some((is_done, after)) = mark_at(bytes, at) else {
        return Err(EventFault::NotAnEvent);
    };
    let (recorded, end) = part_at(alloc, bytes, after)?;
    let part = placed_part(alloc, recorded)?;
    Ok((RecordedPart { is_done, part }, end))
}

fn put_mark(out: &mut Vec<u8>, is_done: bool)
    requires { vec_len out.old + 1 ≤ vec_capacity out.old }
    ensures adds { Adds (IsMarkOf is_done) out.old.items out.new.items }
    ensures len { vec_len out.new ≡ vec_len out.old + 1 }
    ensures room { vec_capacity out.old ≤ vec_capacity out.new }
{
    match is_done {
        false => put_u8(out, NOT_DONE),
        true => put_u8(out, DONE),
    }
}

/// Writes a participant's work, as it is recorded, as a part with its mark at the end, from where it stands. It takes no memory.
pub fn put_work<F: WrittenFiles>(out: &mut Vec<u8>, is_done: bool, work: Work<'_, F>)
    requires part { IsSpellablePart (part_of F.files work) }
    requires work { is_work (part_of F.files work) ≡ true }
    requires room { vec_len out.old + 1 + part_size (part_of F.files work) ≤ vec_capacity out.old }
    ensures adds { Adds (IsMarkedOf (record { is_done = is_done; part = placed_part (part_of F.files work.entry) })) out.old.items out.new.items }
    ensures len { vec_len out.new ≡ vec_len out.old + 1 + part_size (part_of F.files work.entry) }
    ensures room { vec_capacity out.old ≤ vec_capacity out.new }
{
    put_mark(out, is_done);
    match work {
        Work::Changes { names, files } => put_names_and_files_part(out, names, files).unwrap(),
        Work::Settings(settings) => put_settings_part(out, settings).unwrap(),
        Work::Enlistment {
            enlistment,
            manager,
            information,
        } => put_enlistment(out, enlistment, manager, information).unwrap(),
    }
}
