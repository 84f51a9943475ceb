// Bytes in hexadecimal digits.
ghost use Rattle.std.specs.Prelude.{◌≡◌, ◌≤◌, ◌*◌, ◌%◌, ◌++◌, List, ℕ, true, IfOk, OnOk, Some, drop, length, nat_lt, take};
ghost use Rattle.std.specs.List.{list_all};
ghost use Rattle.ktm_base.specs.Bytes.{AreBytes};
ghost use Rattle.ktm_codec.specs.Hex.{hex_of, hex_or_dash, hex_pair, is_hex_digit, pair_value, unhex, unhex_or_dash};

use ktm_base::{Bytes, NoMemory};
use std::alloc::Global;

// The two digits of a byte, both at once.
fn digits_of(byte: u8) -> [u8; 2]
    ensures { result ≡ hex_pair byte }
{
    let values = u16::from_le_bytes([byte / 16, byte % 16]);
    let letters = ((values + 0x0606) >> 4) & 0x0101;
    (values + 0x3030 + letters * 39).to_le_bytes()
}

// Writes each byte as two digits.
fn write_pairs(bytes: &[u8], digits: &mut [u8])
    requires { length digits.old ≡ 2 * length bytes.now }
    ensures { digits.new ≡ hex_of bytes.now }
{
    'bytes: for i in 0..bytes.len() {
        let [high, low] = digits_of(bytes[i]);
        digits[2 * i] = high;
        digits[2 * i + 1] = low;
    }
}

// How many bytes are written or read at a time: their room is filled with zeros while it is near.
const BLOCK: usize = 512;

// Writes bytes of one block at the end.
fn put_block(out: &mut Vec<u8>, bytes: &[u8]) -> Result<(), NoMemory>
    requires { length bytes.now ≤ 512 }
    ensures ok { OnOk result (out.new.items ≡ out.old.items ++ hex_of bytes.now) }
    ensures front { take (length out.old.items) out.new.items ≡ out.old.items }
{
    let at = out.len();
    let Some(end) = at.checked_add(2 * bytes.len()) else {
        return Err(NoMemory);
    };
    out.resize(end, 0)?;
    write_pairs(bytes, &mut out[at..]);
    Ok(())
}

/// Writes bytes at the end, each as two digits with lower-case letters.
pub fn put_hex(out: &mut Vec<u8>, bytes: &[u8]) -> Result<(), NoMemory>
    ensures ok { OnOk result (out.new.items ≡ out.old.items ++ hex_of bytes.now) }
    ensures front { take (length out.old.items) out.new.items ≡ out.old.items }
{
    let Some(digits) = bytes.len().checked_mul(2) else {
        return Err(NoMemory);
    };
    out.reserve(digits)?;
    let mut rest = bytes;
    while !rest.is_empty() {
        let (block, after) = rest.split_at(rest.len().min(BLOCK));
        if let Err(NoMemory) = put_block(out, block) {
            return Err(NoMemory);
        }
        rest = after;
    }
    Ok(())
}

/// Writes bytes at the end, each as two digits with lower-case letters, or a dash where there are no bytes.
pub fn put_hex_or_dash(out: &mut Vec<u8>, bytes: &[u8]) -> Result<(), NoMemory>
    ensures ok { OnOk result (out.new.items ≡ out.old.items ++ hex_or_dash bytes.now) }
    ensures front { take (length out.old.items) out.new.items ≡ out.old.items }
{
    if bytes.is_empty() {
        out.push(b'-')?;
        return Ok(());
    }
    put_hex(out, bytes)
}

// A number that is below 10 for the digits alone.
fn rank(c: u8) -> u8
    ensures { nat_lt result 10 ≡ is_hex_digit c }
{
    let letter = c.wrapping_sub(b'a').saturating_add(4);
    c.wrapping_sub(b'0').min(letter)
}

// Is each of these a digit?
fn are_digits(text: &[u8]) -> bool
    ensures { result ≡ list_all is_hex_digit text.now }
{
    let mut most = 0;
    for c in text {
        most = rank(*c).max(most);
    }
    most < 10
}

// The byte that two digits stand for, both at once.
fn byte_of(high: u8, low: u8) -> u8
    requires high { is_hex_digit high ≡ true }
    requires low { is_hex_digit low ≡ true }
    ensures { Some result ≡ pair_value high low }
{
    let pair = u16::from_le_bytes([high, low]);
    let letters = (pair >> 6) & 0x0101;
    let values = pair - letters * 39 - 0x3030;
    (values.wrapping_mul(0x1001) >> 8) as u8
}

// Reads as many bytes, each from two digits.
fn read_pairs(text: &[u8], bytes: &mut [u8])
    requires long { length text.now ≡ 2 * length bytes.old }
    requires digits { list_all is_hex_digit text.now ≡ true }
    ensures { unhex text.now ≡ Some bytes.new }
{
    'bytes: for i in 0..bytes.len() {
        bytes[i] = byte_of(text[2 * i], text[2 * i + 1]);
    }
}

// Reads the digits of one block, and keeps the bytes behind others.
fn read_block(bytes: &mut Vec<u8>, text: &[u8]) -> Result<(), NoMemory>
    requires even { length text.now % 2 ≡ 0 }
    requires digits { list_all is_hex_digit text.now ≡ true }
    ensures read { OnOk result (unhex text.now ≡ Some (drop (length bytes.old.items) bytes.new.items)) }
    ensures front { OnOk result (take (length bytes.old.items) bytes.new.items ≡ bytes.old.items) }
{
    let at = bytes.len();
    let Some(end) = at.checked_add(text.len() / 2) else {
        return Err(NoMemory);
    };
    bytes.resize(end, 0)?;
    read_pairs(text, &mut bytes[at..]);
    Ok(())
}

// The bytes that pairs of digits stand for.
fn read_hex(alloc: Global, text: &[u8]) -> Result<Option<Bytes>, NoMemory>
    ensures { IfOk result (λ bytes. bytes ≡ unhex text.now) }
{
    if text.len() % 2 != 0 || !are_digits(text) {
        return Ok(None);
    }
    let mut bytes = Vec::with_capacity(alloc, text.len() / 2)?;
    let mut rest = text;
    while !rest.is_empty() {
        let (block, after) = rest.split_at(rest.len().min(2 * BLOCK));
        if let Err(NoMemory) = read_block(&mut bytes, block) {
            return Err(NoMemory);
        }
        rest = after;
    }
    Ok(Some(Bytes::new(bytes)))
}

/// The bytes that pairs of digits with lower-case letters stand for, or none for a dash. There is nothing that no
/// character stands for.
pub fn read_hex_or_dash(alloc: Global, text: &[u8]) -> Result<Option<Bytes>, NoMemory>
    ensures { IfOk result (λ bytes. bytes ≡ unhex_or_dash text.now) }
{
    match text {
        [] => Ok(None),
        b"-" => Ok(Some(Bytes::new(Vec::new(alloc)))),
        _ => read_hex(alloc, text),
    }
}

/// What is read is spelled so, and what is spelled so is read.
pub fn law_of_hex()
    ensures found { (text bytes : List ℕ) → unhex_or_dash text ≡ Some bytes → AreBytes bytes × (text ≡ hex_or_dash bytes) }
    ensures every { (bytes : List ℕ) → AreBytes bytes → unhex_or_dash (hex_or_dash bytes) ≡ Some bytes }
{}
