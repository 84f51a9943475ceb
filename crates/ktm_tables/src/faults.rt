// Devices of which a call fails.
use crate::run::{Fails, NO_FAIL, Outcome, block_of, goes_down_once, run, small_image, text_of};
use crate::transcript::{Transcript, number_before};
use ktm_base::NoMemory;
use ktm_run::Status;
use std::alloc::Global;

/// More calls of a device than a table's script makes.
const MANY: u64 = 1000;

// The fault of the device's call with this number.
fn fails(device: &str, call: u64) -> Fails {
    match device {
        "source" => Fails {
            source: call,
            ..NO_FAIL
        },
        "sink" => Fails {
            sink: call,
            ..NO_FAIL
        },
        _ => Fails {
            disk: call,
            ..NO_FAIL
        },
    }
}

// May a run end so where a call of the device failed. A sink that fails at once is found before anything is touched.
fn is_allowed(device: &str, outcome: &Outcome, usual: &[u8], is_touched: bool) -> bool {
    let replies = outcome.sink.bytes();
    match device {
        "source" => outcome.status == Status::SourceFault && usual.starts_with(replies),
        "sink" => {
            outcome.status == Status::SinkFault
                && usual.starts_with(replies)
                && (!is_touched || !replies.is_empty())
        }
        _ => match outcome.status {
            Status::DiskFault => replies.is_empty(),
            Status::Done => goes_down_once(text_of(replies), text_of(usual)),
            _ => false,
        },
    }
}

// What came of a run where a call of the device was to fail.
enum Tried {
    // All replies were given.
    NotMade,
    EndedWell,
    EndedBadly,
}

fn try_call(
    alloc: Global,
    device: &str,
    call: u64,
    image: &[u8],
    wanted: &Transcript,
) -> Result<Tried, NoMemory> {
    let fails = fails(device, call);
    let block = block_of(alloc, image, fails.disk)?;
    let outcome = run(alloc, &wanted.script, block, fails)?;
    if outcome.status == Status::Done && outcome.sink.bytes() == wanted.replies.as_slice() {
        return Ok(Tried::NotMade);
    }
    let is_touched = call == 1 && outcome.block.bytes() != image;
    if is_allowed(device, &outcome, &wanted.replies, is_touched) {
        Ok(Tried::EndedWell)
    } else {
        Ok(Tried::EndedBadly)
    }
}

// The number of the first call of the device that a run on this image does not make, where each earlier one that failed ended
// as it may.
fn first_not_made(
    alloc: Global,
    device: &str,
    image: &[u8],
    wanted: &Transcript,
) -> Result<Option<u64>, NoMemory> {
    for call in 1..MANY {
        match try_call(alloc, device, call, image, wanted)? {
            Tried::NotMade => return Ok(Some(call)),
            Tried::EndedBadly => return Ok(None),
            Tried::EndedWell => {}
        }
    }
    Ok(None)
}

// What does not hold of a row on this image: a device, and how many calls of it are made at least.
fn found_on(
    alloc: Global,
    row: &str,
    image: &[u8],
    wanted: &Transcript,
) -> Result<Option<String>, NoMemory> {
    let (device, least) = row.split_once(' ').unwrap_or((row, ""));
    let made = first_not_made(alloc, device, image, wanted)?.unwrap_or(0);
    if made > number_before(least).0 {
        return Ok(None);
    }
    Ok(Some(format!(in alloc; "of the {device} the call {made}")?))
}

// What does not hold of these rows on this image.
fn found_in(
    alloc: Global,
    rows: &str,
    image: &[u8],
    wanted: &Transcript,
) -> Result<Option<String>, NoMemory> {
    for row in rows.lines() {
        if row.starts_with('#') {
            continue;
        }
        let what = found_on(alloc, row, image, wanted)?;
        if what.is_some() {
            return Ok(what);
        }
    }
    Ok(None)
}

// The number of the first call of the disk that a script on a block without a byte does not make, where each earlier one that was
// tried and failed ended as it may, else 0. The calls that it does not make come behind those that it makes, so a half of what is
// left is passed over at each try; after ten of them one of fewer than 1,024 calls is left.
fn not_made(alloc: Global, script: &str) -> Result<u64, NoMemory> {
    let wanted = Transcript::of(alloc, script)?;
    let mut made: u64 = 0;
    let mut not_made = MANY;
    for _ in 0..10 {
        let call = made.saturating_add(not_made.saturating_sub(made) / 2);
        match try_call(alloc, "disk", call, &[], &wanted)? {
            Tried::NotMade => not_made = call,
            Tried::EndedWell => made = call,
            Tried::EndedBadly => return Ok(0),
        }
    }
    Ok(not_made)
}

/// What does not hold of a table of costs. Its first part has comments, and how many calls of the disk are made at least; the
/// other two are scripts, which make equally many of them on a block without a byte.
pub fn costs_found(alloc: Global, table: &str) -> Result<Option<String>, NoMemory> {
    let (head, scripts) = table.split_once("\n\n").unwrap_or((table, ""));
    let (_, least) = head.rsplit_once('\n').unwrap_or(("", head));
    let (first, second) = scripts.split_once("\n\n").unwrap_or((scripts, ""));
    let first = not_made(alloc, first)?;
    let second = not_made(alloc, second)?;
    if first == second && number_before(least).0 < first {
        return Ok(None);
    }
    Ok(Some(format!(in alloc; "the calls {first} and {second} are not made")?))
}

/// What does not hold of the table. Its first part is the script, and the second has comments and rows of devices. They are
/// tried on an image of 16 units, and on a block without a byte.
pub fn found(alloc: Global, table: &str) -> Result<Option<String>, NoMemory> {
    let (script, rows) = table.split_once("\n\n").unwrap_or((table, ""));
    let wanted = Transcript::of(alloc, script)?;
    let what = found_in(alloc, rows, small_image(alloc)?.bytes(), &wanted)?;
    if what.is_some() {
        return Ok(what);
    }
    found_in(alloc, rows, &[], &wanted)
}
