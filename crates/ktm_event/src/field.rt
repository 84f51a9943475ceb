// Fields that several kinds of thing have: numbers, Ids and texts.
ghost use Rattle.std.specs.Prelude.{◌≡◌, ◌↔◌, ◌+◌, ◌≤◌, IsTrue, vec_len, vec_capacity};
ghost use Rattle.ktm_base.specs.Grammar.{IsTextOf, IsU8, IsU32, IsU64};
ghost use Rattle.ktm_codec.specs.Spans.{Adds, Reads};
ghost use Rattle.ktm_world.specs.EventGrammar.{IsIdOf};
ghost use Rattle.ktm_world.specs.Values.{IsText, IsTextByte};
ghost use Rattle.ktm_event.specs.Reading.{Gives, IsKeyOf};
ghost use Rattle.ktm_event.specs.Spelling.{IsSpellableId};

use crate::EventFault;
use ktm_base::{Bytes, Id, Text};
use ktm_codec::{put_u32, text_at, u8_at, u32_at, u64_at};
use std::alloc::Global;

// Boots and numbers are counted from here.
const FIRST: u32 = 1;

// Each function here that reads answers what is spelled from a place of the bytes on, and the place behind it.

pub(crate) fn tag_at(bytes: &[u8], at: usize) -> Result<(u8, usize), EventFault>
    ensures { Gives IsU8 bytes.now at result }
{
    u8_at(bytes, at).ok_or(EventFault::NotAnEvent)
}

pub(crate) fn count_at(bytes: &[u8], at: usize) -> Result<(u32, usize), EventFault>
    ensures { Gives IsU32 bytes.now at result }
{
    u32_at(bytes, at).ok_or(EventFault::NotAnEvent)
}

pub(crate) fn number_at(bytes: &[u8], at: usize) -> Result<(u64, usize), EventFault>
    ensures { Gives IsU64 bytes.now at result }
{
    u64_at(bytes, at).ok_or(EventFault::NotAnEvent)
}

/// The Id at a place, and the place behind it.
pub fn read_id(bytes: &[u8], at: usize) -> Option<(Id, usize)>
    ensures { Reads IsIdOf bytes.now at result }
{
    let (boot, after) = u32_at(bytes, at)?;
    let (number, end) = u32_at(bytes, after)?;
    if boot < FIRST || number < FIRST {
        return None;
    }
    Some((Id { boot, number }, end))
}

pub(crate) fn id_at(bytes: &[u8], at: usize) -> Result<(Id, usize), EventFault>
    ensures { Gives IsIdOf bytes.now at result }
{
    read_id(bytes, at).ok_or(EventFault::NotAnEvent)
}

/// Writes an Id at the end. It takes no memory.
pub fn put_id(out: &mut Vec<u8>, id: Id)
    requires id { IsSpellableId id }
    requires room { vec_len out.old + 8 ≤ vec_capacity out.old }
    ensures adds { Adds (IsIdOf id) out.old.items out.new.items }
    ensures len { vec_len out.new ≡ vec_len out.old + 8 }
    ensures room { vec_capacity out.old ≤ vec_capacity out.new }
{
    put_u32(out, id.boot);
    put_u32(out, id.number);
}

pub(crate) fn name_at(alloc: Global, bytes: &[u8], at: usize) -> Result<(Text, usize), EventFault>
    ensures { Gives IsTextOf bytes.now at result }
{
    let Some((name, end)) = text_at(bytes, at) else {
        return Err(EventFault::NotAnEvent);
    };
    Ok((Text::new(name.to_vec(alloc)?), end))
}

pub(crate) fn information_at(
    alloc: Global,
    bytes: &[u8],
    at: usize,
) -> Result<(Bytes, usize), EventFault>
    ensures { Gives IsTextOf bytes.now at result }
{
    let Some((information, end)) = text_at(bytes, at) else {
        return Err(EventFault::NotAnEvent);
    };
    Ok((Bytes::new(information.to_vec(alloc)?), end))
}

fn is_text_byte(byte: u8) -> bool
    ensures { IsTrue result ↔ IsTextByte byte }
{
    (0x20..=0x7e).contains(&byte) && byte != b'"'
}

/// Has a key only the characters of a text.
pub fn is_text(text: &[u8]) -> bool
    ensures { IsTrue result ↔ IsText text.now }
{
    text.iter().all(|byte| is_text_byte(*byte))
}

pub(crate) fn key_at(alloc: Global, bytes: &[u8], at: usize) -> Result<(Text, usize), EventFault>
    ensures { Gives IsKeyOf bytes.now at result }
{
    let (key, end) = name_at(alloc, bytes, at)?;
    if !is_text(key.as_slice()) {
        return Err(EventFault::NotAnEvent);
    }
    Ok((key, end))
}
