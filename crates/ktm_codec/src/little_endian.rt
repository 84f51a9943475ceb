// Numbers with the least byte first, and bytes behind their length.
ghost use Rattle.std.specs.Prelude.{◌≡◌, ◌+◌, ◌^◌, ◌<◌, ◌≤◌, drop, length, take, vec_len, vec_capacity, option_map};
ghost use Rattle.std.specs.Int.{from_le_bytes, w16, w32};
ghost use Rattle.ktm_base.specs.Grammar.{IsU8, IsU16, IsU32, IsU64, IsTextOf, IsValueOf, IsBytesOf};
ghost use Rattle.ktm_codec.specs.Spans.{Adds, OneSpelling, Reads, Unambiguous};

/// The number of the two bytes at a place that is there.
pub fn u16_in(bytes: &[u8], at: usize) -> u16
    requires { at + 2 ≤ length bytes.now }
    ensures { result ≡ from_le_bytes w16 (take 2 (drop at bytes.now)) }
{
    u16::from_le_bytes([bytes[at], bytes[at + 1]])
}

/// The number of the four bytes at a place that is there.
pub fn u32_in(bytes: &[u8], at: usize) -> u32
    requires { at + 4 ≤ length bytes.now }
    ensures { result ≡ from_le_bytes w32 (take 4 (drop at bytes.now)) }
{
    u32::from_le_bytes([bytes[at], bytes[at + 1], bytes[at + 2], bytes[at + 3]])
}

// Each function that reads below answers what is spelled from a place of the bytes on, and the place behind it.

/// The number of one byte at a place, and the place behind it.
pub fn u8_at(bytes: &[u8], at: usize) -> Option<(u8, usize)>
    ensures { Reads IsU8 bytes.now at result }
{
    let [byte, ..] = bytes.get(at..)? else {
        return None;
    };
    Some((*byte, at + 1))
}

/// The number of two bytes at a place, and the place behind it.
pub fn u16_at(bytes: &[u8], at: usize) -> Option<(u16, usize)>
    ensures { Reads IsU16 bytes.now at result }
{
    let [a, b, ..] = bytes.get(at..)? else {
        return None;
    };
    Some((u16::from_le_bytes([*a, *b]), at + 2))
}

/// The number of four bytes at a place, and the place behind it.
pub fn u32_at(bytes: &[u8], at: usize) -> Option<(u32, usize)>
    ensures { Reads IsU32 bytes.now at result }
{
    let [a, b, c, d, ..] = bytes.get(at..)? else {
        return None;
    };
    Some((u32::from_le_bytes([*a, *b, *c, *d]), at + 4))
}

/// The number of eight bytes at a place, and the place behind it.
pub fn u64_at(bytes: &[u8], at: usize) -> Option<(u64, usize)>
    ensures { Reads IsU64 bytes.now at result }
{
    let [a, b, c, d, e, f, g, h, ..] = bytes.get(at..)? else {
        return None;
    };
    let number = u64::from_le_bytes([*a, *b, *c, *d, *e, *f, *g, *h]);
    Some((number, at + 8))
}

/// The text at a place, which stands behind its length in one byte, and the place behind it.
pub fn text_at(bytes: &[u8], at: usize) -> Option<(&[u8], usize)>
    ensures { Reads IsTextOf bytes.now at (option_map (λ read. (read.0.now, read.1)) result) }
{
    let (len, start) = u8_at(bytes, at)?;
    let end = start + usize::from(len);
    Some((bytes.get(start..end)?, end))
}

/// The value at a place, which stands behind its length in two bytes, and the place behind it.
pub fn value_at(bytes: &[u8], at: usize) -> Option<(&[u8], usize)>
    ensures { Reads IsValueOf bytes.now at (option_map (λ read. (read.0.now, read.1)) result) }
{
    let (len, start) = u16_at(bytes, at)?;
    let end = start + usize::from(len);
    Some((bytes.get(start..end)?, end))
}

/// The bytes at a place, which stand behind their length in four bytes, and the place behind them.
pub fn bytes_at(bytes: &[u8], at: usize) -> Option<(&[u8], usize)>
    ensures { Reads IsBytesOf bytes.now at (option_map (λ read. (read.0.now, read.1)) result) }
{
    let (len, start) = u32_at(bytes, at)?;
    let end = start + len as usize;
    Some((bytes.get(start..end)?, end))
}

/// Writes a number of one byte at the end. It takes no memory.
pub fn put_u8(out: &mut Vec<u8>, value: u8)
    requires { vec_len out.old + 1 ≤ vec_capacity out.old }
    ensures adds { Adds (IsU8 value) out.old.items out.new.items }
    ensures len { vec_len out.new ≡ vec_len out.old + 1 }
    ensures room { vec_capacity out.old ≤ vec_capacity out.new }
{
    out.push_reserved(value);
}

/// Writes a number of two bytes at the end. It takes no memory.
pub fn put_u16(out: &mut Vec<u8>, value: u16)
    requires { vec_len out.old + 2 ≤ vec_capacity out.old }
    ensures adds { Adds (IsU16 value) out.old.items out.new.items }
    ensures len { vec_len out.new ≡ vec_len out.old + 2 }
    ensures room { vec_capacity out.old ≤ vec_capacity out.new }
{
    out.extend_from_slice(&value.to_le_bytes()).unwrap();
}

/// Writes a number of four bytes at the end. It takes no memory.
pub fn put_u32(out: &mut Vec<u8>, value: u32)
    requires { vec_len out.old + 4 ≤ vec_capacity out.old }
    ensures adds { Adds (IsU32 value) out.old.items out.new.items }
    ensures len { vec_len out.new ≡ vec_len out.old + 4 }
    ensures room { vec_capacity out.old ≤ vec_capacity out.new }
{
    out.extend_from_slice(&value.to_le_bytes()).unwrap();
}

/// Writes a number of eight bytes at the end. It takes no memory.
pub fn put_u64(out: &mut Vec<u8>, value: u64)
    requires { vec_len out.old + 8 ≤ vec_capacity out.old }
    ensures adds { Adds (IsU64 value) out.old.items out.new.items }
    ensures len { vec_len out.new ≡ vec_len out.old + 8 }
    ensures room { vec_capacity out.old ≤ vec_capacity out.new }
{
    out.extend_from_slice(&value.to_le_bytes()).unwrap();
}

/// Writes a text at the end, behind its length in one byte. It takes no memory.
pub fn put_text(out: &mut Vec<u8>, text: &[u8])
    requires short { length text.now < 2 ^ 8 }
    requires room { vec_len out.old + 1 + length text.now ≤ vec_capacity out.old }
    ensures adds { Adds (IsTextOf text.now) out.old.items out.new.items }
    ensures len { vec_len out.new ≡ vec_len out.old + 1 + length text.now }
    ensures room { vec_capacity out.old ≤ vec_capacity out.new }
{
    put_u8(out, text.len() as u8);
    out.extend_from_slice(text).unwrap();
}

/// Writes a value at the end, behind its length in two bytes. It takes no memory.
pub fn put_value(out: &mut Vec<u8>, value: &[u8])
    requires short { length value.now < 2 ^ 16 }
    requires room { vec_len out.old + 2 + length value.now ≤ vec_capacity out.old }
    ensures adds { Adds (IsValueOf value.now) out.old.items out.new.items }
    ensures len { vec_len out.new ≡ vec_len out.old + 2 + length value.now }
    ensures room { vec_capacity out.old ≤ vec_capacity out.new }
{
    put_u16(out, value.len() as u16);
    out.extend_from_slice(value).unwrap();
}

/// Writes bytes at the end, behind their length in four bytes. It takes no memory.
pub fn put_bytes(out: &mut Vec<u8>, bytes: &[u8])
    requires short { length bytes.now < 2 ^ 32 }
    requires room { vec_len out.old + 4 + length bytes.now ≤ vec_capacity out.old }
    ensures adds { Adds (IsBytesOf bytes.now) out.old.items out.new.items }
    ensures len { vec_len out.new ≡ vec_len out.old + 4 + length bytes.now }
    ensures room { vec_capacity out.old ≤ vec_capacity out.new }
{
    put_u32(out, bytes.len() as u32);
    out.extend_from_slice(bytes).unwrap();
}

/// No spelling begins another one, and a thing has one spelling. So what is written is read again, whatever follows it,
/// and what is read is written as it was.
pub fn law_of_spellings()
    ensures u8s { Unambiguous IsU8 × OneSpelling IsU8 }
    ensures u16s { Unambiguous IsU16 × OneSpelling IsU16 }
    ensures u32s { Unambiguous IsU32 × OneSpelling IsU32 }
    ensures u64s { Unambiguous IsU64 × OneSpelling IsU64 }
    ensures texts { Unambiguous IsTextOf × OneSpelling IsTextOf }
    ensures values { Unambiguous IsValueOf × OneSpelling IsValueOf }
    ensures bytes { Unambiguous IsBytesOf × OneSpelling IsBytesOf }
{}
