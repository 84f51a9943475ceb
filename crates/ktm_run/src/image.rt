// The run of a script on an image.
ghost use Rattle.std.specs.Prelude.{◌≡◌, OnOk, OnErr};
ghost use Rattle.std.specs.Io.KnownBytes.{Appends};
ghost use Rattle.ktm_base.specs.Count.{Rose};
ghost use Rattle.ktm_base.specs.Stream.{Faults};
ghost use Rattle.ktm_run.specs.Form.{bad_image_line};
ghost use Rattle.ktm_run.specs.Ended.{RunLeaves};
ghost use Rattle.ktm_run.specs.Early.{SaysWhy, outside};
ghost use Rattle.ktm_dump.specs.Written.{AppendsPart};

use crate::laws::law_of_runs;
use crate::line::MOST_KEPT;
use crate::script::{PIECE, run_script};
use crate::status::Status;
use ktm_base::{Failed, PowerDisk, Sink, Source};
use ktm_dump::{write_all, write_line};
use ktm_kernel::{OpenFault, law_of_bad_images, law_of_what_is_left, open_kernel};
use std::alloc::Global;

/// Says at which offset the image is bad.
pub fn write_bad_image<K: Sink>(sink: &mut K, offset: u64) -> Result<(), Failed>
    ensures ok { OnOk result (Appends (K.taken sink.old) (K.taken sink.new) (bad_image_line offset)) }
    ensures err { OnErr result (AppendsPart (K.taken sink.old) (K.taken sink.new) (bad_image_line offset)) }
    ensures faults { Faults (K.faults sink.old) (K.faults sink.new) result }
{
    if let Err(Failed) = write_all(sink, b"bad image at ") {
        return Err(Failed);
    }
    let mut digits = itoa::Buffer::new();
    if let Err(Failed) = write_line(sink, digits.format(offset).as_bytes()) {
        return Err(Failed);
    }
    Ok(())
}

/// How a run ends, where no machine was started. Of a bad image and of a worn one it says so.
pub fn not_started<K: Sink>(sink: &mut K, why: OpenFault) -> Status
    ensures says { SaysWhy result why (K.taken sink.old) (K.taken sink.new) }
    ensures fault { result ≡ Status.SinkFault → Rose (K.faults sink.old) (K.faults sink.new) }
{
    match why {
        OpenFault::BadImage(offset) => {
            if let Err(Failed) = write_bad_image(sink, offset) {
                return Status::SinkFault;
            }
            Status::BadImage
        }
        OpenFault::Down => Status::DiskFault,
        OpenFault::Worn => {
            if let Err(Failed) = write_line(sink, b"worn image") {
                return Status::SinkFault;
            }
            Status::Worn
        }
        OpenFault::NoMemory => Status::NoMemory,
    }
}

/// Runs the script on the image.
pub fn run_image<S: Source, K: Sink, D: PowerDisk>(
    alloc: Global,
    source: &mut S,
    sink: &mut K,
    disk: &mut D,
) -> Status
    requires { (D.status disk.old).pending ≡ 0 }
    ensures leaves { RunLeaves result (outside (S.left source.old) (K.taken sink.old) (D.told disk.old) (D.status disk.old)) (outside (S.left source.new) (K.taken sink.new) (D.told disk.new) (D.status disk.new)) }
    ensures source { result ≡ Status.SourceFault → Rose (S.faults source.old) (S.faults source.new) }
    ensures sink { result ≡ Status.SinkFault → Rose (K.faults sink.old) (K.faults sink.new) }
{
    let Ok(mut kept) = Vec::with_capacity(alloc, MOST_KEPT) else {
        return Status::NoMemory;
    };
    let Ok(mut piece) = vec![in alloc; 0u8; PIECE] else {
        return Status::NoMemory;
    };
    law_of_bad_images();
    let mut kernel = match open_kernel(alloc, disk) {
        Ok(restarted) => restarted.kernel,
        Err(why) => return not_started(sink, why),
    };
    law_of_runs();
    law_of_what_is_left();
    let status = run_script(
        alloc,
        &mut kernel,
        source,
        sink,
        disk,
        &mut piece,
        &mut Vec::new(alloc),
        &mut kept,
    );
    kernel.end();
    status
}
