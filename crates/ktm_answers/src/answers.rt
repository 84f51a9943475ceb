// The rows of a table.
use crate::events::{event_of, group_of};
use crate::extents::contents_of;
use crate::files::{calls_of, calls_of_disk};
use crate::losses::kept_by;
use crate::pages::{cached_of, row_of, taken_of, told};
use crate::picks::left_by;
use crate::plain::kept_in;
use crate::texts::{line_of, reply_of};
use ktm_base::NoMemory;
use std::alloc::Global;
use std::fs::File;
use std::rt::Files;

fn answer<R: Files<File = File>>(
    alloc: Global,
    rt: &R,
    kind: &str,
    asked: &str,
) -> Result<String, NoMemory> {
    match kind {
        "lines" => Ok(String::from_str(alloc, line_of(alloc, asked)?)?),
        "replies" => Ok(String::from_str(alloc, reply_of(alloc, asked)?)?),
        "events" => event_of(alloc, asked),
        "groups" => group_of(alloc, asked),
        "picks" => left_by(alloc, asked),
        "losses" => kept_by(alloc, asked),
        "calls" => calls_of(alloc, asked),
        "disks" => calls_of_disk(alloc, asked),
        "plain" => kept_in(alloc, rt, asked),
        "spaces" => taken_of(alloc, asked),
        "rows" => told(alloc, row_of(alloc, asked)),
        "cached" => told(alloc, cached_of(alloc, asked)),
        "extents" => contents_of(alloc, asked),
        _ => Ok(String::from_str(alloc, "a table of no kind")?),
    }
}

/// The first row that does not hold, with what is answered.
pub fn found<R: Files<File = File>>(
    alloc: Global,
    rt: &R,
    kind: &str,
    table: &str,
) -> Result<Option<String>, NoMemory> {
    for row in table.lines() {
        let Some((asked, wanted)) = row.split_once(" => ") else {
            continue;
        };
        let answer = answer(alloc, rt, kind, asked)?;
        if answer.as_str() != wanted {
            return Ok(Some(format!(in alloc; "{asked} => {answer}")?));
        }
    }
    Ok(None)
}
