// Power cuts in the last line of a script.
//
// A table has three parts: the script, whose last line records something; what is seen behind it; and what is seen after a
// restart, where a line has two replies, one where the last line of the script was lost, and one where it was done. The first
// of these lines is `events`, and its replies how many events are found, and how many transactions in doubt, where any are.
// The table begins with `pages N` where what is recorded names N pages, which are written before it.
use crate::run::{Outcome, first_difference, follow, run_small, small_image};
use crate::transcript::Transcript;
use ktm_base::NoMemory;
use ktm_run::Status;
use std::alloc::Global;

#[derive(Drop)]
struct Table<'a> {
    script: &'a str,
    then: &'a str,
    restarted: &'a str,
    /// How many calls of the disk its last line makes before it records: one for each page, and a sync behind them.
    before: u64,
    /// How many it makes in all.
    calls: u64,
}

/// What is recorded takes four calls of the disk: its body, a sync, the gate, a sync.
const RECORDING: u64 = 4;

/// Where the log has no room for it, six more before them, for a snapshot.
const COMPACTION: u64 = 10;

/// How many calls of the recording pass before the power goes, and the pick of the restart, where the log has room.
const CUTS: [(u64, u64); 7] = [(0, 1), (1, 1), (2, 2), (2, 7), (3, 2), (3, 7), (4, 1)];

/// Where it has none, fewer calls pass than this, each number of them.
const MOST_PASSED: u64 = 30;

/// And these are the picks.
const PICKS: [u64; 2] = [1, 2];

// How many calls of the disk the pages of a table take, and the table behind what it says of them.
fn page_calls(text: &str) -> (u64, &str) {
    let Some(count) = text.strip_prefix("pages ") else {
        return (0, text);
    };
    let (count, rest) = count.split_once('\n').unwrap_or((count, ""));
    (count.parse::<u64>().unwrap_or(0).saturating_add(1), rest)
}

// The parts of a table whose last line records with so many calls.
fn table_of(text: &str, recording: u64) -> Table<'_> {
    let (before, text) = page_calls(text);
    let (script, rest) = text.split_once("\n\n").unwrap_or((text, ""));
    let (then, restarted) = rest.split_once("\n\n").unwrap_or((rest, ""));
    Table {
        script,
        then,
        restarted,
        before,
        calls: before.saturating_add(recording),
    }
}

// Adds what is seen after the restart by the pick, where the last line of the script was done, or was lost.
fn add_seen(
    alloc: Global,
    transcript: &mut Transcript,
    row: &str,
    pick: u64,
    is_done: bool,
) -> Result<(), NoMemory> {
    let (line, replies) = row.split_once(" => ").unwrap_or((row, ""));
    let (lost, done) = replies.split_once(" => ").unwrap_or((replies, ""));
    let reply = if is_done { done } else { lost };
    if line == "events" {
        add_restart(alloc, transcript, pick, reply)
    } else {
        transcript.add(line, reply)
    }
}

// Adds a restart, which finds so many events, and so many transactions in doubt, where any are.
fn add_restart(
    alloc: Global,
    transcript: &mut Transcript,
    pick: u64,
    counts: &str,
) -> Result<(), NoMemory> {
    let (events, in_doubt) = counts.split_once(' ').unwrap_or((counts, "0"));
    let line = format!(in alloc; "restart {pick}")?;
    let reply = format!(in alloc; "restarted events={events} indoubt={in_doubt}")?;
    transcript.add(&line, &reply)
}

// Adds the last line of the script with the cut in it, and what is seen after the restart.
fn add_cut(
    alloc: Global,
    transcript: &mut Transcript,
    table: &Table<'_>,
    last: &str,
    (calls, pick): (u64, u64),
    is_done: bool,
) -> Result<(), NoMemory> {
    let (line, reply) = last.split_once(" => ").unwrap_or((last, ""));
    let (reply, crash) = if calls < table.calls {
        ("MACHINE_DOWN", "MACHINE_DOWN")
    } else {
        (reply, "ok")
    };
    transcript.add(&format!(in alloc; "cut {calls}")?, "ok")?;
    transcript.add_rows(alloc, &format!(in alloc; "{line} => {reply}")?)?;
    transcript.add("crash", crash)?;
    for row in table.restarted.lines() {
        add_seen(alloc, transcript, row, pick, is_done)?;
    }
    Ok(())
}

// The transcript where the last line of the script was done, or was lost.
fn cut(
    alloc: Global,
    table: &Table<'_>,
    at: (u64, u64),
    is_done: bool,
) -> Result<Transcript, NoMemory> {
    let (front, last) = table.script.rsplit_once('\n').unwrap_or(("", table.script));
    let mut transcript = Transcript::of(alloc, front)?;
    add_cut(alloc, &mut transcript, table, last, at, is_done)?;
    Ok(transcript)
}

// What is not as it is wanted of a run where so many calls passed. Only in the last two calls the line may be done or lost.
fn difference(
    alloc: Global,
    table: &Table<'_>,
    outcome: &Outcome,
    calls: u64,
    lost: &[u8],
    done: &[u8],
) -> Result<Option<String>, NoMemory> {
    let replies = outcome.sink.bytes();
    let may_be_done = calls >= table.calls.saturating_sub(2);
    let is_lost = calls < table.calls && replies == lost;
    let is_done = may_be_done && replies == done;
    if outcome.status == Status::Done && (is_lost || is_done) {
        return Ok(None);
    }
    let what = first_difference(alloc, replies, if may_be_done { done } else { lost })?;
    Ok(Some(format!(in alloc; "behind {calls} calls {what}")?))
}

// What is not as it is wanted where the power goes there.
fn found_of_cut(
    alloc: Global,
    table: &Table<'_>,
    at: (u64, u64),
) -> Result<Option<String>, NoMemory> {
    let lost = cut(alloc, table, at, false)?;
    let done = cut(alloc, table, at, true)?;
    let outcome = run_small(alloc, &lost.script)?;
    difference(alloc, table, &outcome, at.0, &lost.replies, &done.replies)
}

// What is not as it is wanted where the power stays.
fn found_uncut(alloc: Global, table: &Table<'_>) -> Result<Option<String>, NoMemory> {
    let Table { script, then, .. } = table;
    let whole = format!(in alloc; "{script}\n{then}")?;
    let (_, what) = follow(alloc, &whole, small_image(alloc)?)?;
    Ok(what)
}

/// What does not hold of the table, for whose last line the log has room.
pub fn found(alloc: Global, text: &str) -> Result<Option<String>, NoMemory> {
    let table = table_of(text, RECORDING);
    let what = found_uncut(alloc, &table)?;
    if what.is_some() {
        return Ok(what);
    }
    for calls in 0..table.before {
        let what = found_of_cut(alloc, &table, (calls, 1))?;
        if what.is_some() {
            return Ok(what);
        }
    }
    for &(calls, pick) in CUTS.iter() {
        let at = (table.before.saturating_add(calls), pick);
        let what = found_of_cut(alloc, &table, at)?;
        if what.is_some() {
            return Ok(what);
        }
    }
    Ok(None)
}

/// What does not hold of the table, for whose last line the log has no room.
pub fn found_in_compaction(alloc: Global, text: &str) -> Result<Option<String>, NoMemory> {
    let table = table_of(text, COMPACTION);
    let what = found_uncut(alloc, &table)?;
    if what.is_some() {
        return Ok(what);
    }
    for calls in 0..MOST_PASSED {
        for &pick in PICKS.iter() {
            let what = found_of_cut(alloc, &table, (calls, pick))?;
            if what.is_some() {
                return Ok(what);
            }
        }
    }
    Ok(None)
}
