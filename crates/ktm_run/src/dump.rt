// The form that writes what an image holds.
ghost use Rattle.std.specs.Prelude.{◌≡◌, ◌<◌, ℕ, List, Option, IfSome, length};
ghost use Rattle.ktm_base.specs.Count.{Rose};
ghost use Rattle.ktm_run.specs.Dumped.{DumpLeaves, SaysBlank, SaysFault};
ghost use Rattle.ktm_run.specs.Early.{outside};

use crate::image::write_bad_image;
use crate::status::Status;
use ktm_base::{Down, Failed, PowerDisk, Sink};
use ktm_dump::{law_of_texts, write_line, write_state};
use ktm_journal::LoadFault;
use ktm_kernel::{law_of_journals, load};
use std::alloc::Global;

// How the dump of an image ends that was not loaded. Of a bad one it says so.
fn not_loaded<K: Sink>(sink: &mut K, why: LoadFault) -> Status
    ensures says { SaysFault result why (K.taken sink.old) (K.taken sink.new) }
    ensures fault { result ≡ Status.SinkFault → Rose (K.faults sink.old) (K.faults sink.new) }
{
    match why {
        LoadFault::Bad(offset) => {
            if let Err(Failed) = write_bad_image(sink, offset) {
                return Status::SinkFault;
            }
            Status::BadImage
        }
        LoadFault::Down => Status::DiskFault,
        LoadFault::NoMemory => Status::NoMemory,
    }
}

// Writes that the image has no byte.
fn write_blank<K: Sink>(sink: &mut K) -> Status
    ensures says { SaysBlank result (K.taken sink.old) (K.taken sink.new) }
    ensures fault { result ≡ Status.SinkFault → Rose (K.faults sink.old) (K.faults sink.new) }
{
    if let Err(Failed) = write_line(sink, b"blank image") {
        return Status::SinkFault;
    }
    Status::Done
}

// Writes what the image holds, which has a byte.
fn dump_state<K: Sink, D: PowerDisk>(alloc: Global, sink: &mut K, disk: &mut D) -> Status
    requires { IfSome (D.told disk.old) (λ s. 0 < length s.seen) }
    ensures leaves { (left : Option (List ℕ)) → DumpLeaves result (outside left (K.taken sink.old) (D.told disk.old) (D.status disk.old)) (outside left (K.taken sink.new) (D.told disk.new) (D.status disk.new)) }
    ensures fault { result ≡ Status.SinkFault → Rose (K.faults sink.old) (K.faults sink.new) }
{
    law_of_journals();
    law_of_texts();
    // the log is read into it, and then the text is collected in it
    let mut buffer = Vec::new(alloc);
    let loaded = match load(alloc, disk, &mut buffer) {
        Ok(loaded) => loaded,
        Err(why) => return not_loaded(sink, why),
    };
    if let Err(Failed) = write_state(sink, &mut buffer, loaded.state) {
        return Status::SinkFault;
    }
    Status::Done
}

/// Writes what the image holds, and changes no byte of it. It takes no memory once the first byte is written.
pub fn dump_image<K: Sink, D: PowerDisk>(alloc: Global, sink: &mut K, disk: &mut D) -> Status
    ensures leaves { (left : Option (List ℕ)) → DumpLeaves result (outside left (K.taken sink.old) (D.told disk.old) (D.status disk.old)) (outside left (K.taken sink.new) (D.told disk.new) (D.status disk.new)) }
    ensures fault { result ≡ Status.SinkFault → Rose (K.faults sink.old) (K.faults sink.new) }
{
    let len = match disk.len() {
        Ok(len) => len,
        Err(Down) => return Status::DiskFault,
    };
    if len == 0 {
        return write_blank(sink);
    }
    dump_state(alloc, sink, disk)
}
