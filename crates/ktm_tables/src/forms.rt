// Command lines of every form, one after another on one image.
use crate::images::put_at;
use crate::run::{NO_FAIL, Outcome, blank, block_of, difference, run_line};
use crate::transcript::Transcript;
use ktm_base::NoMemory;
use ktm_mem::MemBlock;
use std::alloc::Global;

/// The command line behind which come rows.
const RUN: &str = "run image script";

// Runs a command line over rows, and gives what it came to, with what is wanted.
fn outcome(
    alloc: Global,
    line: &str,
    rows: &str,
    block: MemBlock,
) -> Result<(Outcome, Transcript), NoMemory> {
    let wanted = if line == RUN {
        Transcript::of(alloc, rows)?
    } else {
        Transcript::written(alloc, rows)?
    };
    let outcome = run_line(alloc, line, &wanted.script, block, NO_FAIL)?;
    Ok((outcome, wanted))
}

// The block with other bytes at a place: `AT BYTE ..`.
fn changed(alloc: Global, bytes: &str, block: &MemBlock) -> Result<MemBlock, NoMemory> {
    let mut image = block.bytes().to_vec(alloc)?;
    put_at(&mut image, bytes);
    block_of(alloc, &image, 0)
}

// What is wrong of the block's length.
fn wrong_length(alloc: Global, len: &str, block: &MemBlock) -> Result<Option<String>, NoMemory> {
    let has = block.bytes().len();
    if len.parse::<usize>().unwrap_or(0) == has {
        return Ok(None);
    }
    Ok(Some(format!(in alloc; "the image has {has} bytes")?))
}

// The block once a part was tried, and what was not as it is wanted.
fn tried(
    alloc: Global,
    part: &str,
    block: MemBlock,
) -> Result<(MemBlock, Option<String>), NoMemory> {
    let (line, rows) = part.split_once('\n').unwrap_or((part, ""));
    if let Some(bytes) = line.strip_prefix("holds ") {
        return Ok((block_of(alloc, bytes.as_bytes(), 0)?, None));
    }
    if let Some(bytes) = line.strip_prefix("bytes ") {
        return Ok((changed(alloc, bytes, &block)?, None));
    }
    if let Some(len) = line.strip_prefix("length ") {
        let what = wrong_length(alloc, len, &block)?;
        return Ok((block, what));
    }
    let (outcome, wanted) = outcome(alloc, line, rows, block)?;
    let what = difference(alloc, &outcome, &wanted)?;
    Ok((outcome.block, what))
}

/// What does not hold of a table of forms. The first line of a part is `holds BYTES`, and then the image has these; or `bytes AT BYTE ..`,
/// and then it has these at a place; or `length N`, and it has so many bytes; or it is a command line. Behind `run image script` come rows, and behind each other command line what it writes.
pub fn found(alloc: Global, table: &str) -> Result<Option<String>, NoMemory> {
    let mut image = blank(alloc)?;
    for part in table.split("\n\n") {
        let (left, what) = tried(alloc, part, image)?;
        if what.is_some() {
            return Ok(what);
        }
        image = left;
    }
    Ok(None)
}
