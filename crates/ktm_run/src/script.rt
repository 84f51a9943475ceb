// The loop over a script.
ghost use Rattle.std.specs.Prelude.{◌≡◌, ◌+◌, ◌<◌, ◌≤◌, ℕ, List, [], length, take, IfOk, OnOk, OnErr, IsErrOf, vec_capacity};
ghost use Rattle.std.specs.Io.KnownBytes.{Consumes, IsAtEnd, Keeps};
ghost use Rattle.ktm_base.specs.Count.{Rose};
ghost use Rattle.ktm_base.specs.Stream.{Faults};
ghost use Rattle.ktm_base.specs.declared.limits.TheConstants.{MOST_SCRIPT_BYTES};
ghost use Rattle.ktm_kernel.specs.Stands.{IsReady};
ghost use Rattle.ktm_laws.specs.Running.{HasEventsLeft};
ghost use Rattle.ktm_run.specs.Executed.{ScriptLeaves, position};
ghost use Rattle.ktm_run.specs.Lasting.{LastsForLines};
ghost use Rattle.ktm_run.specs.Progress.{Progress, Stops, point};
ghost use Rattle.ktm_run.specs.Script.{kept_of, last_line};

use crate::fault::RunFault;
use crate::line::{do_line, feed};
use crate::status::Status;
use ktm_base::{Failed, MOST_SCRIPT_BYTES, PowerDisk, Sink, Source};
use ktm_kernel::Kernel;
use std::alloc::Global;

/// How many bytes are read at a time.
pub const PIECE: usize = 65536;

// Reads at most so many bytes into the front of the buffer.
fn read_some<S: Source>(source: &mut S, buffer: &mut [u8], most: u64) -> Result<usize, Failed>
    requires some { 0 < most }
    requires room { 0 < length buffer.old }
    ensures count { IfOk result (λ n. n ≤ most) }
    ensures within { IfOk result (λ n. n ≤ length buffer.new) }
    ensures reads { IfOk result (λ n. Consumes (S.left source.old) (S.left source.new) (take n buffer.new)) }
    ensures end { IfOk result (λ n. n ≡ 0 → IsAtEnd (S.left source.new)) }
    ensures kept { OnErr result (Keeps (S.left source.old) (S.left source.new)) }
    ensures faults { Faults (S.faults source.old) (S.faults source.new) result }
{
    let room = (buffer.len() as u64).min(most) as usize;
    let Ok(count) = source.read(&mut buffer[..room]) else {
        return Err(Failed);
    };
    Ok(count)
}

// Answers what is behind the last newline.
fn finish<K: Sink, D: PowerDisk>(
    alloc: Global,
    kernel: &mut Kernel,
    disk: &mut D,
    sink: &mut K,
    made: &mut Vec<u8>,
    kept: &[u8],
) -> Result<(), RunFault>
    requires ready { IsReady kernel.old (D.told disk.old) (D.status disk.old) }
    requires counts { HasEventsLeft kernel.old.now }
    ensures done { OnOk result ((part : List ℕ) → kept.now ≡ kept_of part → Progress
        (point kernel.old (D.told disk.old) (D.status disk.old) (K.taken sink.old))
        (point kernel.new (D.told disk.new) (D.status disk.new) (K.taken sink.new))
        (last_line part)) }
    ensures stopped { OnErr result ((part : List ℕ) → kept.now ≡ kept_of part → Stops
        (point kernel.old (D.told disk.old) (D.status disk.old) (K.taken sink.old))
        (point kernel.new (D.told disk.new) (D.status disk.new) (K.taken sink.new))
        (last_line part)) }
    ensures fault { IsErrOf result RunFault.SinkFault → Rose (K.faults sink.old) (K.faults sink.new) }
{
    if kept.is_empty() {
        return Ok(());
    }
    if let Err(fault) = do_line(alloc, kernel, disk, sink, made, kept) {
        return Err(fault);
    }
    Ok(())
}

/// Answers the lines of the script, which is read through the buffer, with room for the part of a line that is behind the last
/// newline, and room in which each reply is made.
pub fn run_script<S: Source, K: Sink, D: PowerDisk>(
    alloc: Global,
    kernel: &mut Kernel,
    source: &mut S,
    sink: &mut K,
    disk: &mut D,
    buffer: &mut [u8],
    made: &mut Vec<u8>,
    kept: &mut Vec<u8>,
) -> Status
    requires ready { IsReady kernel.old (D.told disk.old) (D.status disk.old) }
    requires counts { LastsForLines (MOST_SCRIPT_BYTES + 1) kernel.old }
    requires room { 0 < length buffer.old }
    requires kept { (kept.old.items ≡ []) × (140001 ≤ vec_capacity kept.old) }
    ensures leaves { ScriptLeaves result
        (position (S.left source.old) (point kernel.old (D.told disk.old) (D.status disk.old) (K.taken sink.old)))
        (position (S.left source.new) (point kernel.new (D.told disk.new) (D.status disk.new) (K.taken sink.new))) }
    ensures source { result ≡ Status.SourceFault → Rose (S.faults source.old) (S.faults source.new) }
    ensures sink { result ≡ Status.SinkFault → Rose (K.faults sink.old) (K.faults sink.new) }
{
    let mut left = MOST_SCRIPT_BYTES;
    // once nothing is left, one byte alone is asked for: is there more
    'pieces: loop {
        let Ok(count) = read_some(source, buffer, left.max(1)) else {
            return Status::SourceFault;
        };
        if count == 0 {
            match finish(alloc, kernel, disk, sink, made, kept) {
                Ok(()) => return Status::Done,
                Err(RunFault::SinkFault) => return Status::SinkFault,
                Err(RunFault::NoMemory) => return Status::NoMemory,
            }
        }
        if left == 0 {
            return Status::ScriptTooLong;
        }
        match feed(alloc, kernel, disk, sink, made, kept, &buffer[..count]) {
            Ok(()) => {}
            Err(RunFault::SinkFault) => return Status::SinkFault,
            Err(RunFault::NoMemory) => return Status::NoMemory,
        }
        left -= count as u64;
    }
}
