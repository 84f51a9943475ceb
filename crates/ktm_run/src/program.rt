// The program.
ghost use Rattle.std.specs.Prelude.{◌≡◌, ◌⊎◌, ◌<◌, ◌≤◌, ℕ, length, map, true, Some, None, IfSome, IsSomeAnd};
ghost use Rattle.std.specs.String.{string_bytes};
ghost use Rattle.ktm_base.specs.declared.limits.TheConstants.{MOST_SCRIPT_BYTES};
ghost use Rattle.ktm_base.specs.Count.{Rose};
ghost use Rattle.ktm_run.specs.Dumped.{DumpLeaves, IsReadable};
ghost use Rattle.ktm_run.specs.Early.{EndsAs, FoundDown, NoForm, SaysUsage, Untouched, outside};
ghost use Rattle.ktm_run.specs.Form.{form_of};
ghost use Rattle.ktm_run.specs.Formatted.{FormatLeaves};
ghost use Rattle.ktm_run.specs.Forms.{FormLeaves, IsWithin, UntouchedOr};
ghost use Rattle.ktm_run.specs.Generated.{GeneratedLeaves};
ghost use Rattle.ktm_kernel.specs.Begins.{Begins, BeginsAs};
ghost use Rattle.ktm_run.specs.Theorem.{EndedEarly};
ghost use Rattle.ktm_world.specs.Durable.{Durable, is_worn};

use crate::dump::dump_image;
use crate::form::{Form, form_of};
use crate::format::format_image;
use crate::generated::run_generated;
use crate::image::run_image;
use crate::status::Status;
use ktm_base::{Failed, PowerDisk, Sink, Source};
use ktm_dump::write_line;
use ktm_kernel::law_of_bad_images;
use std::alloc::Global;

// Says which forms there are.
fn no_form<K: Sink>(sink: &mut K) -> Status
    ensures says { SaysUsage result (K.taken sink.old) (K.taken sink.new) }
    ensures fault { result ≡ Status.SinkFault → Rose (K.faults sink.old) (K.faults sink.new) }
{
    if let Err(Failed) = write_line(
        sink,
        b"usage: ktm run IMAGE SCRIPT | format IMAGE UNITS | dump IMAGE | gen IMAGE NUMBER LINES",
    ) {
        return Status::SinkFault;
    }
    Status::Usage
}

// Does what the form asks for.
fn do_form<S: Source, K: Sink, D: PowerDisk>(
    alloc: Global,
    form: Form,
    source: &mut S,
    sink: &mut K,
    disk: &mut D,
) -> Status
    requires pending { (D.status disk.old).pending ≡ 0 }
    requires within { IsWithin form }
    ensures leaves { FormLeaves form result (outside (S.left source.old) (K.taken sink.old) (D.told disk.old) (D.status disk.old)) (outside (S.left source.new) (K.taken sink.new) (D.told disk.new) (D.status disk.new)) }
    ensures unread { (form ≡ Form.Run → ⊥) → source.new ≡ source.old }
    ensures source { result ≡ Status.SourceFault → Rose (S.faults source.old) (S.faults source.new) }
    ensures sink { result ≡ Status.SinkFault → Rose (K.faults sink.old) (K.faults sink.new) }
{
    match form {
        Form::Run => run_image(alloc, source, sink, disk),
        Form::Format { units } => format_image(disk, units),
        Form::Dump => dump_image(alloc, sink, disk),
        Form::Gen { number, lines } => run_generated(alloc, number, lines, sink, disk),
    }
}

/// The program: its words are those behind its name, the source is the script, the sink is where the replies go, and the
/// disk is the image. The words are one of these forms:
///
/// - `run IMAGE SCRIPT` runs the script on the image. A disk without a byte becomes a new image.
/// - `format IMAGE UNITS` makes the image new, whatever it held, and writes nothing. One that the power ended leaves an image that
///   may stand for nothing; it is made new again.
/// - `dump IMAGE` writes what the image holds, and changes no byte of it.
/// - `gen IMAGE NUMBER LINES` runs so many lines of the generated script of a number, as a run does, and writes the summary of
///   their replies in their place.
///
/// A sink that fails at a write of no bytes ends it before anything is touched.
///
/// A run, of a generated script too, and a dump may run out of memory at any time and end early, and with each other status they end only for its cause.
pub fn ktm<S: Source, K: Sink, D: PowerDisk>(
    alloc: Global,
    words: &[String],
    source: &mut S,
    sink: &mut K,
    disk: &mut D,
) -> Status
    requires { (D.status disk.old).pending ≡ 0 }
    // the sink is asked before anything is touched
    ensures first { K.refuses sink.old ≡ true → (result ≡ Status.SinkFault) × Untouched
        (outside (S.left source.old) (K.taken sink.old) (D.told disk.old) (D.status disk.old)) (outside (S.left source.new) (K.taken sink.new) (D.told disk.new) (D.status disk.new)) }
    // the words are said to be of no form exactly where they are of none
    ensures form { form_of (map string_bytes words.now) ≡ None → (result ≡ Status.Usage) ⊎ (result ≡ Status.SinkFault) }
    ensures usage { result ≡ Status.Usage → form_of (map string_bytes words.now) ≡ None }
    ensures no_form { form_of (map string_bytes words.now) ≡ None → NoForm result
        (outside (S.left source.old) (K.taken sink.old) (D.told disk.old) (D.status disk.old)) (outside (S.left source.new) (K.taken sink.new) (D.told disk.new) (D.status disk.new)) }
    // the transcript theorem, and what stands where a run ended early
    ensures run { form_of (map string_bytes words.now) ≡ Some Form.Run → (base : Durable) → IsSomeAnd (D.told disk.old) (Begins base)
        → EndedEarly result base (outside (S.left source.old) (K.taken sink.old) (D.told disk.old) (D.status disk.old)) (outside (S.left source.new) (K.taken sink.new) (D.told disk.new) (D.status disk.new)) }
    // what each end of a run leaves, over every disk
    ensures ends { form_of (map string_bytes words.now) ≡ Some Form.Run → EndsAs result (IfSome (D.told disk.old) (λ s. (base : Durable) × BeginsAs base s.seen))
        (outside (S.left source.old) (K.taken sink.old) (D.told disk.old) (D.status disk.old)) (outside (S.left source.new) (K.taken sink.new) (D.told disk.new) (D.status disk.new)) }
    // what each end of the other forms leaves, over every disk
    ensures format { (units : ℕ) → form_of (map string_bytes words.now) ≡ Some (Form.Format units) → UntouchedOr result (outside (S.left source.old) (K.taken sink.old) (D.told disk.old) (D.status disk.old)) (outside (S.left source.new) (K.taken sink.new) (D.told disk.new) (D.status disk.new)) (FormatLeaves result units
        (outside (S.left source.old) (K.taken sink.old) (D.told disk.old) (D.status disk.old)) (outside (S.left source.new) (K.taken sink.new) (D.told disk.new) (D.status disk.new))) }
    ensures dump { form_of (map string_bytes words.now) ≡ Some Form.Dump → UntouchedOr result (outside (S.left source.old) (K.taken sink.old) (D.told disk.old) (D.status disk.old)) (outside (S.left source.new) (K.taken sink.new) (D.told disk.new) (D.status disk.new)) (DumpLeaves result
        (outside (S.left source.old) (K.taken sink.old) (D.told disk.old) (D.status disk.old)) (outside (S.left source.new) (K.taken sink.new) (D.told disk.new) (D.status disk.new))) }
    // what the run of a generated script leaves
    ensures generated { (number lines : ℕ) → form_of (map string_bytes words.now) ≡ Some (Form.Gen number lines) → UntouchedOr result (outside (S.left source.old) (K.taken sink.old) (D.told disk.old) (D.status disk.old)) (outside (S.left source.new) (K.taken sink.new) (D.told disk.new) (D.status disk.new)) (GeneratedLeaves number lines result
        (outside (S.left source.old) (K.taken sink.old) (D.told disk.old) (D.status disk.old)) (outside (S.left source.new) (K.taken sink.new) (D.told disk.new) (D.status disk.new))) }
    // but for a run nothing at all is asked of the source
    ensures unread { (form_of (map string_bytes words.now) ≡ Some Form.Run → ⊥) → source.new ≡ source.old }
    ensures source { result ≡ Status.SourceFault → Rose (S.faults source.old) (S.faults source.new) }
    ensures sink { result ≡ Status.SinkFault → Rose (K.faults sink.old) (K.faults sink.new) }
    ensures too_long { result ≡ Status.ScriptTooLong → IfSome (S.left source.old) (λ bytes. MOST_SCRIPT_BYTES < length bytes) }
    // where neither the source nor the sink fails and the script is not too long, a run ends early only out of memory, where what
    // it was to begin from is worn, or where the disk was down in the opening or went down in it
    ensures complete { form_of (map string_bytes words.now) ≡ Some Form.Run → (base : Durable) → IsSomeAnd (D.told disk.old) (Begins base)
        → ¬ Rose (S.faults source.old) (S.faults source.new) → ¬ Rose (K.faults sink.old) (K.faults sink.new) → IsSomeAnd (S.left source.old) (λ bytes. length bytes ≤ MOST_SCRIPT_BYTES)
        → (result ≡ Status.Done) ⊎ (result ≡ Status.NoMemory) ⊎ ((result ≡ Status.Worn) × (is_worn base ≡ true))
        ⊎ ((result ≡ Status.DiskFault) × FoundDown (outside (S.left source.old) (K.taken sink.old) (D.told disk.old) (D.status disk.old)) (outside (S.left source.new) (K.taken sink.new) (D.told disk.new) (D.status disk.new))) }
    // where the sink does not fail, an image is made new but where the disk was down or went down
    ensures formats { (units : ℕ) → form_of (map string_bytes words.now) ≡ Some (Form.Format units) → ¬ Rose (K.faults sink.old) (K.faults sink.new)
        → (result ≡ Status.Done)
        ⊎ ((result ≡ Status.DiskFault) × FoundDown (outside (S.left source.old) (K.taken sink.old) (D.told disk.old) (D.status disk.old)) (outside (S.left source.new) (K.taken sink.new) (D.told disk.new) (D.status disk.new))) }
    // and what an image holds is written, but where memory ran out, or the disk was down or went down
    ensures dumps { form_of (map string_bytes words.now) ≡ Some Form.Dump → IsSomeAnd (D.told disk.old) (λ s. IsReadable s.seen) → ¬ Rose (K.faults sink.old) (K.faults sink.new)
        → (result ≡ Status.Done) ⊎ (result ≡ Status.NoMemory)
        ⊎ ((result ≡ Status.DiskFault) × FoundDown (outside (S.left source.old) (K.taken sink.old) (D.told disk.old) (D.status disk.old)) (outside (S.left source.new) (K.taken sink.new) (D.told disk.new) (D.status disk.new))) }
    // and the run of a generated script ends early only as a run does, where the sink does not fail
    ensures generates { (number lines : ℕ) → form_of (map string_bytes words.now) ≡ Some (Form.Gen number lines) → (base : Durable) → IsSomeAnd (D.told disk.old) (Begins base)
        → ¬ Rose (K.faults sink.old) (K.faults sink.new)
        → (result ≡ Status.Done) ⊎ (result ≡ Status.NoMemory) ⊎ ((result ≡ Status.Worn) × (is_worn base ≡ true))
        ⊎ ((result ≡ Status.DiskFault) × FoundDown (outside (S.left source.old) (K.taken sink.old) (D.told disk.old) (D.status disk.old)) (outside (S.left source.new) (K.taken sink.new) (D.told disk.new) (D.status disk.new))) }
{
    if let Err(Failed) = sink.write(&[]) {
        return Status::SinkFault;
    }
    let Some(form) = form_of(words) else {
        return no_form(sink);
    };
    law_of_bad_images();
    do_form(alloc, form, source, sink, disk)
}
