// The values that are in lines.
ghost use Rattle.std.specs.Prelude.{◌≡◌, ◌<◌, [], decimal};
ghost use Rattle.ktm_codec.specs.Guid.{guid_spelling};
ghost use Rattle.ktm_codec.specs.Hex.{hex_digit, hex_of, hex_or_dash, hex_pair};
ghost use Rattle.ktm_dump.specs.Written.{Puts, out};

use crate::waiting::put;
use itoa::Buffer;
use ktm_base::{Failed, Sink};
use uuid::Uuid;

/// Puts a number in decimal digits.
pub fn put_number<K: Sink>(sink: &mut K, waiting: &mut Vec<u8>, number: u64) -> Result<(), Failed>
    ensures { Puts (out (K.taken sink.old) (K.faults sink.old) waiting.old.items) (out (K.taken sink.new) (K.faults sink.new) waiting.new.items) (decimal number) result }
{
    put(sink, waiting, Buffer::new().format(number).as_bytes())
}

/// Puts a GUID as replies spell it.
pub fn put_guid<K: Sink>(sink: &mut K, waiting: &mut Vec<u8>, guid: &Uuid) -> Result<(), Failed>
    ensures { Puts (out (K.taken sink.old) (K.faults sink.old) waiting.old.items) (out (K.taken sink.new) (K.faults sink.new) waiting.new.items) (guid_spelling guid.now) result }
{
    let mut buffer = Uuid::encode_buffer();
    let text = guid.hyphenated().encode_lower(&mut buffer);
    put(sink, waiting, text.as_bytes())
}

// The digit of a number below 16.
fn digit(number: u8) -> u8
    requires { number < 16 }
    ensures { result ≡ hex_digit number }
{
    if number < 10 {
        b'0' + number
    } else {
        b'a' - 10 + number
    }
}

// The two digits of a byte.
fn pair(byte: u8) -> [u8; 2]
    ensures { result ≡ hex_pair byte }
{
    [digit(byte / 16), digit(byte % 16)]
}

// Puts each byte as two digits.
fn put_hex<K: Sink>(sink: &mut K, waiting: &mut Vec<u8>, bytes: &[u8]) -> Result<(), Failed>
    ensures { Puts (out (K.taken sink.old) (K.faults sink.old) waiting.old.items) (out (K.taken sink.new) (K.faults sink.new) waiting.new.items) (hex_of bytes.now) result }
{
    for byte in bytes {
        if let Err(Failed) = put(sink, waiting, &pair(*byte)) {
            return Err(Failed);
        }
    }
    Ok(())
}

/// Puts bytes as replies spell them: each as two digits, or a dash where there are no bytes.
pub fn put_hex_or_dash<K: Sink>(
    sink: &mut K,
    waiting: &mut Vec<u8>,
    bytes: &[u8],
) -> Result<(), Failed>
    ensures { Puts (out (K.taken sink.old) (K.faults sink.old) waiting.old.items) (out (K.taken sink.new) (K.faults sink.new) waiting.new.items) (hex_or_dash bytes.now) result }
{
    match bytes {
        [] => put(sink, waiting, b"-"),
        _ => put_hex(sink, waiting, bytes),
    }
}
