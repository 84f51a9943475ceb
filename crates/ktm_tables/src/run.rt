// Whole runs in memory.
ghost use Rattle.std.specs.Prelude.{◌≡◌};

use crate::transcript::Transcript;
use ktm_base::{Bytes, NoMemory, PowerDisk, Sink};
use ktm_cut::CutDisk;
use ktm_journal::Journal;
use ktm_mem::{Calls, MemBlock, MemSink, MemSource};
use ktm_run::{Status, ktm};
use std::alloc::Global;

/// The length of an image of 2,048 units, the most that a table makes.
const MOST_LEN: usize = 84_414_464;

/// How many bytes of replies a sink takes.
const REPLIES: usize = 1 << 20;

/// The numbers of the calls that fail, counted from 1, of the source, the sink, and the block. None fails at 0.
#[derive(Clone, Copy)]
pub struct Fails {
    pub source: u64,
    pub sink: u64,
    pub disk: u64,
}

pub const NO_FAIL: Fails = Fails {
    source: 0,
    sink: 0,
    disk: 0,
};

/// What a run came to.
#[derive(Drop)]
pub struct Outcome {
    pub status: Status,
    pub sink: MemSink,
    pub block: MemBlock,
}

fn calls(alloc: Global, number: u64) -> Result<Calls, NoMemory> {
    let mut numbers = Vec::new(alloc);
    numbers.push(number)?;
    Ok(Calls::new(numbers))
}

/// A block with these bytes, and room for such an image, whose call with this number fails.
pub fn block_of(alloc: Global, bytes: &[u8], fail: u64) -> Result<MemBlock, NoMemory> {
    let room = bytes.len().max(MOST_LEN);
    let bytes = Bytes::new(bytes.to_vec(alloc)?);
    MemBlock::new(alloc, bytes, room, calls(alloc, fail)?)
}

/// A block without a byte.
pub fn blank(alloc: Global) -> Result<MemBlock, NoMemory> {
    block_of(alloc, &[], 0)
}

/// A new image of 16 units.
pub fn small_image(alloc: Global) -> Result<MemBlock, NoMemory> {
    let mut disk = CutDisk::new(alloc, blank(alloc)?)?;
    // (a format that failed would show in what is run on it)
    let _ = Journal::format(&mut disk, 16, 1);
    Ok(disk.into_block())
}

fn source_of(alloc: Global, script: &[u8], fail: u64) -> Result<MemSource, NoMemory> {
    let calls = calls(alloc, fail)?;
    Ok(MemSource::new(Bytes::new(script.to_vec(alloc)?), calls))
}

fn sink_of(alloc: Global, fail: u64) -> Result<MemSink, NoMemory> {
    MemSink::new(alloc, REPLIES, calls(alloc, fail)?)
}

// The words of a command line, with a blank between each two.
fn words_of(alloc: Global, line: &str) -> Result<Vec<String>, NoMemory> {
    let mut words = Vec::new(alloc);
    for word in line.split(' ') {
        words.push(String::from_str(alloc, word)?)?;
    }
    Ok(words)
}

// Runs a command line on a disk, where a call of the source fails.
fn run_on<K: Sink, D: PowerDisk>(
    alloc: Global,
    line: &str,
    script: &[u8],
    fail: u64,
    sink: &mut K,
    disk: &mut D,
) -> Result<Status, NoMemory>
    requires { (D.status disk.old).pending ≡ 0 }
{
    let words = words_of(alloc, line)?;
    let mut source = source_of(alloc, script, fail)?;
    Ok(ktm(alloc, &words, &mut source, sink, disk))
}

/// Runs a command line on a block with this script, where a call of the source and one of the sink fail.
pub fn run_line(
    alloc: Global,
    line: &str,
    script: &[u8],
    block: MemBlock,
    fails: Fails,
) -> Result<Outcome, NoMemory> {
    let mut disk = CutDisk::new(alloc, block)?;
    let mut sink = sink_of(alloc, fails.sink)?;
    let status = run_on(alloc, line, script, fails.source, &mut sink, &mut disk)?;
    Ok(Outcome {
        status,
        sink,
        block: disk.into_block(),
    })
}

/// Runs a script on a block, where a call of the source and one of the sink fail.
pub fn run(
    alloc: Global,
    script: &[u8],
    block: MemBlock,
    fails: Fails,
) -> Result<Outcome, NoMemory> {
    run_line(alloc, "run image script", script, block, fails)
}

/// Runs a script on a new image of 16 units.
pub fn run_small(alloc: Global, script: &[u8]) -> Result<Outcome, NoMemory> {
    run(alloc, script, small_image(alloc)?, NO_FAIL)
}

/// The bytes as a text.
pub fn text_of(bytes: &[u8]) -> &str {
    str::from_utf8(bytes).unwrap_or("no text")
}

/// The command lines that open an image.
const OPENING: [&str; 3] = ["run image script", "dump image", "gen image 1 1"];

/// A script for the run among them.
const SCRIPT: &[u8] = b"p1 KvList -";

/// Is this line all that comes of opening the image, in each way.
pub fn is_bad(alloc: Global, image: &[u8], line: &str) -> Result<bool, NoMemory> {
    for &opening in OPENING.iter() {
        let block = block_of(alloc, image, 0)?;
        let outcome = run_line(alloc, opening, SCRIPT, block, NO_FAIL)?;
        let is_said = text_of(outcome.sink.bytes()).strip_suffix('\n') == Some(line);
        if outcome.status != Status::BadImage || !is_said || outcome.block.bytes() != image {
            return Ok(false);
        }
    }
    Ok(true)
}

/// Can the image be opened in each way.
pub fn opens(alloc: Global, image: &[u8]) -> Result<bool, NoMemory> {
    for &opening in OPENING.iter() {
        let block = block_of(alloc, image, 0)?;
        let outcome = run_line(alloc, opening, SCRIPT, block, NO_FAIL)?;
        if outcome.status != Status::Done {
            return Ok(false);
        }
    }
    Ok(true)
}

/// Are the replies the usual ones up to the call in which the power goes, and MACHINE_DOWN from there on up to a restart. Behind
/// that they may be any.
pub fn goes_down_once(replies: &str, usual: &str) -> bool {
    let mut is_down = false;
    let mut is_back = false;
    let mut usual = usual.lines();
    for reply in replies.lines() {
        let Some(line) = usual.next() else {
            return false;
        };
        is_down = is_down || reply != line;
        is_back = is_back || (is_down && reply.starts_with("restarted "));
        if is_down && !is_back && reply != "MACHINE_DOWN" {
            return false;
        }
    }
    usual.next().is_none()
}

fn told_reply(alloc: Global, place: usize, reply: &str, wanted: &str) -> Result<String, NoMemory> {
    Ok(format!(in alloc; "reply {place} is {reply:.99}, not {wanted:.99}")?)
}

/// The first reply that is not the one that is wanted.
pub fn first_difference(alloc: Global, replies: &[u8], wanted: &[u8]) -> Result<String, NoMemory> {
    let mut replies = text_of(replies).lines();
    for (place, wanted) in text_of(wanted).lines().enumerate() {
        let reply = replies.next().unwrap_or("none");
        if reply != wanted {
            return told_reply(alloc, place, reply, wanted);
        }
    }
    Ok(String::from_str(alloc, "more replies than are wanted")?)
}

/// What is not as it is wanted of a run.
pub fn difference(
    alloc: Global,
    outcome: &Outcome,
    wanted: &Transcript,
) -> Result<Option<String>, NoMemory> {
    let status = outcome.status.exit_code();
    if outcome.sink.bytes() != wanted.replies.as_slice() {
        return Ok(Some(first_difference(alloc, outcome.sink.bytes(), &wanted.replies)?));
    }
    if status != wanted.status {
        return Ok(Some(format!(in alloc; "the status is {status}")?));
    }
    Ok(None)
}

/// Runs these rows on a block, and gives the block that is left, and what was not as it is wanted.
pub fn follow(
    alloc: Global,
    rows: &str,
    block: MemBlock,
) -> Result<(MemBlock, Option<String>), NoMemory> {
    let wanted = Transcript::of(alloc, rows)?;
    let outcome = run(alloc, &wanted.script, block, NO_FAIL)?;
    let what = difference(alloc, &outcome, &wanted)?;
    Ok((outcome.block, what))
}
