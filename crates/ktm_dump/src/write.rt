// Whole pieces and whole lines, over any sink.
ghost use Rattle.std.specs.Prelude.{◌++◌, ◌∷◌, [], OnOk, OnErr};
ghost use Rattle.std.specs.Io.KnownBytes.{Appends};
ghost use Rattle.ktm_base.specs.Stream.{Faults};
ghost use Rattle.ktm_dump.specs.Written.{AppendsPart, newline};

use ktm_base::{Failed, Sink};

/// Writes all the bytes, in as many pieces as the sink takes.
pub fn write_all<K: Sink>(sink: &mut K, bytes: &[u8]) -> Result<(), Failed>
    ensures ok { OnOk result (Appends (K.taken sink.old) (K.taken sink.new) bytes.now) }
    ensures err { OnErr result (AppendsPart (K.taken sink.old) (K.taken sink.new) bytes.now) }
    ensures faults { Faults (K.faults sink.old) (K.faults sink.new) result }
{
    let mut at = 0;
    while at < bytes.len() {
        let Ok(count) = sink.write(&bytes[at..]) else {
            return Err(Failed);
        };
        if count == 0 {
            return Err(Failed);
        }
        at += count;
    }
    Ok(())
}

/// Writes the bytes and a newline.
pub fn write_line<K: Sink>(sink: &mut K, line: &[u8]) -> Result<(), Failed>
    ensures ok { OnOk result (Appends (K.taken sink.old) (K.taken sink.new) (line.now ++ newline ∷ [])) }
    ensures err { OnErr result (AppendsPart (K.taken sink.old) (K.taken sink.new) (line.now ++ newline ∷ [])) }
    ensures faults { Faults (K.faults sink.old) (K.faults sink.new) result }
{
    if let Err(Failed) = write_all(sink, line) {
        return Err(Failed);
    }
    if let Err(Failed) = write_all(sink, b"\n") {
        return Err(Failed);
    }
    Ok(())
}
