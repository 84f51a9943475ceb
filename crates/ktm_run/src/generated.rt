// The run of a generated script on an image.
ghost use Rattle.std.specs.Prelude.{◌≡◌, ◌≤◌, ℕ, List, Option, OnOk, OnErr};
ghost use Rattle.std.specs.Io.KnownBytes.{Appends};
ghost use Rattle.ktm_base.specs.Count.{Rose};
ghost use Rattle.ktm_base.specs.Stream.{Faults};
ghost use Rattle.ktm_kernel.specs.Stands.{IsReady};
ghost use Rattle.ktm_log.specs.OnDisk.{on};
ghost use Rattle.ktm_run.specs.Early.{outside};
ghost use Rattle.ktm_run.specs.Generated.{GeneratedLeaves};
ghost use Rattle.ktm_run.specs.Lasting.{LastsForLines};
ghost use Rattle.ktm_run.specs.Progress.{point};
ghost use Rattle.ktm_dump.specs.Written.{AppendsPart};
ghost use Rattle.ktm_run.specs.Summary.{named, summary};
ghost use Rattle.ktm_run.specs.Tallied.{LinesLeave, SumLeaves};

use crate::answer::execute;
use crate::image::not_started;
use crate::laws::law_of_runs;
use crate::status::Status;
use crate::tally::Tally;
use ktm_base::{Failed, NoMemory, PowerDisk, Sink};
use ktm_dump::write_all;
use ktm_gen::{Generator, LONGEST_LINE, MOST_LINES};
use ktm_kernel::{Kernel, law_of_bad_images, law_of_what_is_left, open_kernel};
use std::alloc::Global;

// Executes the first lines of the script of a number, each of which is made in the room for it, and counts their replies.
fn run_lines<D: PowerDisk>(
    alloc: Global,
    kernel: &mut Kernel,
    disk: &mut D,
    line: &mut Vec<u8>,
    number: u64,
    lines: u32,
) -> Result<Tally, NoMemory>
    requires ready { IsReady kernel.old (D.told disk.old) (D.status disk.old) }
    requires counts { LastsForLines lines kernel.old }
    requires lines { lines ≤ MOST_LINES }
    ensures { LinesLeave number lines (on kernel.old (D.told disk.old) (D.status disk.old)) (on kernel.new (D.told disk.new) (D.status disk.new)) result }
{
    law_of_what_is_left();
    let mut generator = Generator::new(number);
    let mut tally = Tally::new();
    'lines: for done in 0..lines {
        if let Err(NoMemory) = generator.next_line(line) {
            return Err(NoMemory);
        }
        let Ok(reply) = execute(alloc, kernel, disk, line) else {
            return Err(NoMemory);
        };
        tally.count(&reply);
    }
    Ok(tally)
}

// Writes a number behind its name.
fn write_named<K: Sink>(sink: &mut K, name: &[u8], number: u64) -> Result<(), Failed>
    ensures ok { OnOk result (Appends (K.taken sink.old) (K.taken sink.new) (named name.now number)) }
    ensures err { OnErr result (AppendsPart (K.taken sink.old) (K.taken sink.new) (named name.now number)) }
    ensures faults { Faults (K.faults sink.old) (K.faults sink.new) result }
{
    if let Err(Failed) = write_all(sink, name) {
        return Err(Failed);
    }
    let mut digits = itoa::Buffer::new();
    if let Err(Failed) = write_all(sink, digits.format(number).as_bytes()) {
        return Err(Failed);
    }
    Ok(())
}

// Writes the summary: what was counted, and how many events were recorded.
fn write_summary<K: Sink>(sink: &mut K, tally: &Tally, events: u64) -> Result<(), Failed>
    ensures ok { OnOk result (Appends (K.taken sink.old) (K.taken sink.new) (summary tally.now.lines tally.now.ok tally.now.refused tally.now.restarts events)) }
    ensures err { OnErr result (AppendsPart (K.taken sink.old) (K.taken sink.new) (summary tally.now.lines tally.now.ok tally.now.refused tally.now.restarts events)) }
    ensures faults { Faults (K.faults sink.old) (K.faults sink.new) result }
{
    if let Err(Failed) = write_named(sink, b"lines=", tally.lines) {
        return Err(Failed);
    }
    if let Err(Failed) = write_named(sink, b" ok=", tally.ok) {
        return Err(Failed);
    }
    if let Err(Failed) = write_named(sink, b" refused=", tally.refused) {
        return Err(Failed);
    }
    if let Err(Failed) = write_named(sink, b" restarts=", tally.restarts) {
        return Err(Failed);
    }
    if let Err(Failed) = write_named(sink, b" events=", events) {
        return Err(Failed);
    }
    if let Err(Failed) = write_all(sink, b"\n") {
        return Err(Failed);
    }
    Ok(())
}

// Executes the lines, and writes the summary of their replies.
fn summarize<K: Sink, D: PowerDisk>(
    alloc: Global,
    kernel: &mut Kernel,
    sink: &mut K,
    disk: &mut D,
    line: &mut Vec<u8>,
    number: u64,
    lines: u32,
) -> Status
    requires ready { IsReady kernel.old (D.told disk.old) (D.status disk.old) }
    requires counts { LastsForLines lines kernel.old }
    requires lines { lines ≤ MOST_LINES }
    ensures leaves { SumLeaves result number lines (point kernel.old (D.told disk.old) (D.status disk.old) (K.taken sink.old)) (point kernel.new (D.told disk.new) (D.status disk.new) (K.taken sink.new)) }
    ensures sink { result ≡ Status.SinkFault → Rose (K.faults sink.old) (K.faults sink.new) }
{
    let Ok(tally) = run_lines(alloc, kernel, disk, line, number, lines) else {
        return Status::NoMemory;
    };
    if let Err(Failed) = write_summary(sink, &tally, kernel.events()) {
        return Status::SinkFault;
    }
    Status::Done
}

/// Runs the first lines of the script of a number on the image, and writes the summary of their replies in their place. A line
/// takes no memory but what its execution takes.
pub fn run_generated<K: Sink, D: PowerDisk>(
    alloc: Global,
    number: u64,
    lines: u32,
    sink: &mut K,
    disk: &mut D,
) -> Status
    requires pending { (D.status disk.old).pending ≡ 0 }
    requires lines { lines ≤ MOST_LINES }
    ensures leaves { (left : Option (List ℕ)) → GeneratedLeaves number lines result (outside left (K.taken sink.old) (D.told disk.old) (D.status disk.old)) (outside left (K.taken sink.new) (D.told disk.new) (D.status disk.new)) }
    ensures sink { result ≡ Status.SinkFault → Rose (K.faults sink.old) (K.faults sink.new) }
{
    let Ok(mut line) = Vec::with_capacity(alloc, LONGEST_LINE) else {
        return Status::NoMemory;
    };
    law_of_bad_images();
    let mut kernel = match open_kernel(alloc, disk) {
        Ok(restarted) => restarted.kernel,
        Err(why) => return not_started(sink, why),
    };
    law_of_runs();
    law_of_what_is_left();
    let status = summarize(alloc, &mut kernel, sink, disk, &mut line, number, lines);
    kernel.end();
    status
}
