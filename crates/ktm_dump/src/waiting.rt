// A text that is collected in room that was taken before, and written where that is full.
ghost use Rattle.std.specs.Prelude.{◌≡◌, ◌++◌, [], true, false, OnOk, OnErr};
ghost use Rattle.std.specs.Io.KnownBytes.{Appends};
ghost use Rattle.ktm_base.specs.Stream.{Faults};
ghost use Rattle.ktm_dump.specs.Written.{AppendsPart, Puts, out};

use crate::write::write_all;
use ktm_base::{Failed, Sink};

// Lets the bytes wait behind the others, if there is room for them.
fn wait(waiting: &mut Vec<u8>, bytes: &[u8]) -> bool
    ensures waits { result ≡ true → waiting.new.items ≡ waiting.old.items ++ bytes.now }
    ensures same { result ≡ false → waiting.new.items ≡ waiting.old.items }
{
    if waiting.capacity() - waiting.len() < bytes.len() {
        return false;
    }
    waiting.extend_from_slice(bytes).unwrap();
    true
}

/// Writes what waits.
pub fn flush<K: Sink>(sink: &mut K, waiting: &mut Vec<u8>) -> Result<(), Failed>
    ensures ok { OnOk result (Appends (K.taken sink.old) (K.taken sink.new) waiting.old.items) }
    ensures empty { OnOk result (waiting.new.items ≡ []) }
    ensures err { OnErr result (AppendsPart (K.taken sink.old) (K.taken sink.new) waiting.old.items) }
    ensures faults { Faults (K.faults sink.old) (K.faults sink.new) result }
{
    if let Err(Failed) = write_all(sink, waiting.as_slice()) {
        return Err(Failed);
    }
    waiting.clear();
    Ok(())
}

/// Puts the bytes behind what waits; where there is no room for them, all is written.
pub fn put<K: Sink>(sink: &mut K, waiting: &mut Vec<u8>, bytes: &[u8]) -> Result<(), Failed>
    ensures { Puts (out (K.taken sink.old) (K.faults sink.old) waiting.old.items) (out (K.taken sink.new) (K.faults sink.new) waiting.new.items) bytes.now result }
{
    if wait(waiting, bytes) {
        return Ok(());
    }
    if let Err(Failed) = flush(sink, waiting) {
        return Err(Failed);
    }
    if let Err(Failed) = write_all(sink, bytes) {
        return Err(Failed);
    }
    Ok(())
}
