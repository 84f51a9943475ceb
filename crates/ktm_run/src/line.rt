// A line of a script.
ghost use Rattle.std.specs.Prelude.{◌≡◌, ◌≤◌, ◌++◌, ℕ, List, IsErrOf, OnOk, length, vec_capacity};
ghost use Rattle.ktm_base.specs.Count.{Rose};
ghost use Rattle.ktm_kernel.specs.Stands.{IsReady};
ghost use Rattle.ktm_laws.specs.Running.{HasEventsLeft};
ghost use Rattle.ktm_run.specs.Executed.{FeedLeaves, LineLeaves};
ghost use Rattle.ktm_run.specs.Lasting.{LastsForLines};
ghost use Rattle.ktm_run.specs.Progress.{point};
ghost use Rattle.ktm_run.specs.Script.{ended, has_reply, kept_of, reply_line};

use crate::answer::execute;
use crate::fault::RunFault;
use ktm_base::{Failed, MOST_LINE_BYTES, NoMemory, PowerDisk, Sink};
use ktm_dump::write_all;
use ktm_kernel::{Kernel, law_of_what_is_left};
use ktm_reply::put_reply;
use ktm_world::Reply;
use memchr::memchr;
use std::alloc::Global;

/// The most bytes of a line that are kept. A line that has them all is in no grammar, whatever comes behind.
pub const MOST_KEPT: usize = MOST_LINE_BYTES + 1;

fn is_answered(line: &[u8]) -> bool
    ensures { result ≡ has_reply line.now }
{
    match line {
        [] => false,
        [byte, ..] => *byte != b'#',
    }
}

// Makes the line that a reply is, in the room of the one before.
fn make_reply_line(out: &mut Vec<u8>, reply: &Reply) -> Result<(), NoMemory>
    ensures { OnOk result (out.new.items ≡ reply_line reply.now) }
{
    out.clear();
    put_reply(out, reply)?;
    out.push(b'\n')?;
    Ok(())
}

/// Answers a line of which so much was kept, and writes the reply, which is made in the room for it, before it returns. An empty
/// line and a comment have none.
pub fn do_line<K: Sink, D: PowerDisk>(
    alloc: Global,
    kernel: &mut Kernel,
    disk: &mut D,
    sink: &mut K,
    made: &mut Vec<u8>,
    kept: &[u8],
) -> Result<(), RunFault>
    requires ready { IsReady kernel.old (D.told disk.old) (D.status disk.old) }
    requires counts { HasEventsLeft kernel.old.now }
    ensures leaves { LineLeaves kept.now (point kernel.old (D.told disk.old) (D.status disk.old) (K.taken sink.old)) (point kernel.new (D.told disk.new) (D.status disk.new) (K.taken sink.new)) result }
    ensures fault { IsErrOf result RunFault.SinkFault → Rose (K.faults sink.old) (K.faults sink.new) }
    ensures later { K.faults sink.old ≤ K.faults sink.new }
{
    if !is_answered(kept) {
        return Ok(());
    }
    law_of_what_is_left();
    let Ok(reply) = execute(alloc, kernel, disk, kept) else {
        return Err(RunFault::NoMemory);
    };
    if let Err(NoMemory) = make_reply_line(made, &reply) {
        return Err(RunFault::NoMemory);
    }
    if let Err(Failed) = write_all(sink, made.as_slice()) {
        return Err(RunFault::SinkFault);
    }
    Ok(())
}

// Keeps bytes behind a part of a line, as far as that is not yet too long.
fn keep(kept: &mut Vec<u8>, bytes: &[u8])
    requires { 140001 ≤ vec_capacity kept.old }
    ensures kept { (part : List ℕ) → kept.old.items ≡ kept_of part → kept.new.items ≡ kept_of (part ++ bytes.now) }
    ensures room { 140001 ≤ vec_capacity kept.new }
{
    let room = MOST_KEPT.saturating_sub(kept.len());
    kept.extend_from_slice(&bytes[..bytes.len().min(room)])
        .unwrap();
}

// Keeps the end of a line behind a part of it. Where there is no part the whole line is in the bytes, and is not copied.
fn keep_end(kept: &mut Vec<u8>, bytes: &[u8])
    requires { 140001 ≤ vec_capacity kept.old }
    ensures line { (part : List ℕ) → kept.old.items ≡ kept_of part → ended kept.new.items bytes.now ≡ kept_of (part ++ bytes.now) }
    ensures room { 140001 ≤ vec_capacity kept.new }
{
    if !kept.is_empty() {
        keep(kept, bytes);
    }
}

// So much of a line as is kept, whose end is in these bytes.
fn ended<'a>(kept: &'a [u8], bytes: &'a [u8]) -> &'a [u8]
    ensures { result.now ≡ ended kept.now bytes.now }
{
    if kept.is_empty() {
        &bytes[..bytes.len().min(MOST_KEPT)]
    } else {
        kept
    }
}

/// Answers the lines that end in these bytes, and keeps what is behind the last newline, in room that was taken before.
pub fn feed<K: Sink, D: PowerDisk>(
    alloc: Global,
    kernel: &mut Kernel,
    disk: &mut D,
    sink: &mut K,
    made: &mut Vec<u8>,
    kept: &mut Vec<u8>,
    bytes: &[u8],
) -> Result<(), RunFault>
    requires ready { IsReady kernel.old (D.told disk.old) (D.status disk.old) }
    requires counts { LastsForLines (length bytes.now) kernel.old }
    requires room { 140001 ≤ vec_capacity kept.old }
    ensures leaves { FeedLeaves bytes.now kept.old.items kept.new.items (point kernel.old (D.told disk.old) (D.status disk.old) (K.taken sink.old)) (point kernel.new (D.told disk.new) (D.status disk.new) (K.taken sink.new)) result }
    ensures room { 140001 ≤ vec_capacity kept.new }
    ensures fault { IsErrOf result RunFault.SinkFault → Rose (K.faults sink.old) (K.faults sink.new) }
    ensures later { K.faults sink.old ≤ K.faults sink.new }
{
    let mut rest = bytes;
    while let Some(end) = memchr(b'\n', rest) {
        keep_end(kept, &rest[..end]);
        let line = ended(kept, &rest[..end]);
        if let Err(fault) = do_line(alloc, kernel, disk, sink, made, line) {
            return Err(fault);
        }
        kept.clear();
        rest = &rest[end..][1..];
    }
    keep(kept, rest);
    Ok(())
}
