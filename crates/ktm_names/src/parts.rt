// The parts of a path or a pattern.
ghost use Rattle.std.specs.Prelude.{◌≡◌, ◌↔◌, IfOk, IfErr, IsTrue, All, None, Some, ◌+◌, map, option_map, take};
ghost use Rattle.ktm_base.specs.Names.{IsLastPart, IsName, is_name_byte, is_pattern_byte};
ghost use Rattle.ktm_names.specs.Reading.{behind_backslash, cut, parts_of};

use crate::PathFault;
use ktm_base::{MOST_NAME_BYTES, MOST_PARTS};
use std::alloc::{AllocError, Global};

#[tactic(auto, unfolding(ktm_base::specs::Names::is_name_byte))]
fn is_name_byte(byte: u8) -> bool
    ensures { result ≡ is_name_byte byte }
{
    match byte {
        b'0'..=b'9' | b'A'..=b'Z' | b'a'..=b'z' => true,
        _ => (0x20..=0x7E).contains(&byte) && !b"\\/:*?\"<>|".contains(&byte),
    }
}

fn is_pattern_byte(byte: u8) -> bool
    ensures { result ≡ is_pattern_byte byte }
{
    is_name_byte(byte) || byte == b'*' || byte == b'?'
}

/// Is the text a name.
pub fn is_name(name: &[u8]) -> bool
    ensures { IsTrue result ↔ IsName name.now }
{
    match name {
        [] | [.., b' ' | b'.'] => false,
        _ => name.len() <= MOST_NAME_BYTES && name.iter().all(|byte| is_name_byte(*byte)),
    }
}

pub fn is_last_part(last: &[u8]) -> bool
    ensures { IsTrue result ↔ IsLastPart last.now }
{
    !last.is_empty()
        && last.len() <= MOST_NAME_BYTES
        && last.iter().all(|byte| is_pattern_byte(*byte))
}

pub fn are_names(parts: &[&[u8]]) -> bool
    ensures { IsTrue result ↔ All (λ part. IsName part.now) parts.now }
{
    parts.iter().all(|part| is_name(part))
}

#[tactic(auto, unfolding(crate::specs::Reading::behind_backslash))]
fn behind_backslash(text: &[u8]) -> Option<&[u8]>
    ensures { option_map (λ rest. rest.now) result ≡ behind_backslash text.now }
{
    match text {
        [b'\\', rest @ ..] => Some(rest),
        _ => None,
    }
}

// The first parts of a text between its backslashes: all of them, or one more than there may be.
fn cut(alloc: Global, text: &[u8]) -> Result<Vec<&[u8]>, AllocError>
    ensures { IfOk result (λ parts. map (λ part. part.now) parts.items ≡ take (MOST_PARTS + 1) (cut text.now)) }
{
    text.split(|byte| *byte == b'\\')
        .take(MOST_PARTS + 1)
        .collect(alloc)
}

// The parts behind the backslash at the front, where there are not too many.
#[tactic(auto, unfolding(crate::specs::Reading::parts_of))]
pub fn parts_of(alloc: Global, text: &[u8]) -> Result<Vec<&[u8]>, PathFault>
    ensures ok { IfOk result (λ parts. parts_of text.now ≡ Some (map (λ part. part.now) parts.items)) }
    ensures not { IfErr result (λ fault. fault ≡ PathFault.NotAPath → parts_of text.now ≡ None) }
{
    let Some(rest) = behind_backslash(text) else {
        return Err(PathFault::NotAPath);
    };
    let parts = cut(alloc, rest)?;
    if parts.len() > MOST_PARTS {
        return Err(PathFault::NotAPath);
    }
    Ok(parts)
}
