// What is left of an image where the power goes in each call of the disk, at some places of a script.
use crate::run::{NO_FAIL, difference, goes_down_once, run, run_line, small_image, text_of};
use crate::transcript::{Transcript, number_before};
use ktm_base::NoMemory;
use ktm_run::Status;
use std::alloc::Global;

// The script with a cut behind so many calls, in place of one of its lines `cut`, which are counted from 1.
fn cut_at(alloc: Global, rows: &str, place: u64, calls: u64) -> Result<Transcript, NoMemory> {
    let mut transcript = Transcript::new(alloc);
    let mut at: u64 = 0;
    for row in rows.lines() {
        if row != "cut" {
            transcript.add_rows(alloc, row)?;
            continue;
        }
        at = at.saturating_add(1);
        if at == place {
            transcript.add(&format!(in alloc; "cut {calls}")?, "ok")?;
        }
    }
    Ok(transcript)
}

// What is not as it is wanted of the replies of a script with a cut in it, or of the dump behind it.
fn wrong_of_cut(
    alloc: Global,
    usual: &Transcript,
    dump: &Transcript,
) -> Result<Option<String>, NoMemory> {
    let outcome = run(alloc, &usual.script, small_image(alloc)?, NO_FAIL)?;
    let replies = text_of(outcome.sink.bytes());
    if outcome.status != Status::Done || !goes_down_once(replies, text_of(&usual.replies)) {
        return Ok(Some(String::from_str(alloc, "the machine does not go down once")?));
    }
    let dumped = run_line(alloc, "dump image", &[], outcome.block, NO_FAIL)?;
    difference(alloc, &dumped, dump)
}

// What does not hold of a part: `PLACE FROM TO`, and what a dump says where so many calls pass at that place.
fn found_in(alloc: Global, rows: &str, part: &str) -> Result<Option<String>, NoMemory> {
    let (head, dump) = part.split_once('\n').unwrap_or((part, ""));
    let (place, calls) = number_before(head);
    let (from, to) = number_before(calls);
    let dump = Transcript::written(alloc, dump)?;
    for calls in from..=number_before(to).0 {
        let usual = cut_at(alloc, rows, place, calls)?;
        if let Some(what) = wrong_of_cut(alloc, &usual, &dump)? {
            return Ok(Some(format!(in alloc; "at {place} behind {calls} calls: {what}")?));
        }
    }
    Ok(None)
}

/// What does not hold of a table of dumps. Its first part is the script, with a line `cut` at each place, and each other part
/// is `PLACE FROM TO`, with what a dump says where so many calls of the disk pass at that place before the power goes.
pub fn found(alloc: Global, table: &str) -> Result<Option<String>, NoMemory> {
    let (rows, parts) = table.split_once("\n\n").unwrap_or((table, ""));
    for part in parts.split("\n\n") {
        let what = found_in(alloc, rows, part)?;
        if what.is_some() {
            return Ok(what);
        }
    }
    Ok(None)
}
