// The parts of a line, most of them behind a space. Each reader answers with what it read and what follows that.
ghost use Rattle.std.specs.Prelude.{◌≡◌, ◌≤◌, IfSome, option_map};
ghost use Rattle.ktm_codec.specs.Guid.{guid_at};
ghost use Rattle.ktm_codec.specs.Number.{number_at};
ghost use Rattle.ktm_codec.specs.Steps.{at_end};
ghost use Rattle.ktm_script.specs.Reading.{GivesPart, access_at, behind_space, bytes_at, disposition_at, durability_at, kind_at, kind_in_transaction_at, label_at, modes_at, named_at, process_at, share_at, size_at, text_at, view_at, whole};

use crate::LineFault::{self, BadLine};
use crate::word::one_of;
use ktm_base::{Bytes, Label, MOST_PROCESS, Pid, Text};
use ktm_codec::{
    read_guid, read_hex_or_dash, read_number, read_quoted, split_long_word, strip_word,
};
use ktm_world::{Access, Disposition, Durability, EnlistmentKind, ShareMode, View};
use std::alloc::Global;
use uuid::Uuid;

// Nothing follows.
pub fn end(text: &[u8]) -> Option<()>
    ensures { result ≡ at_end tt text.now }
{
    if text.is_empty() { Some(()) } else { None }
}

// A letter and a number from 1.
#[tactic(auto, unfolding(crate::specs::Reading::named_at))]
fn named<'a>(letter: &[u8], most: u64, text: &'a [u8]) -> Option<(u64, &'a [u8])>
    ensures value { option_map (λ read. (read.0, read.1.now)) result ≡ named_at letter.now most text.now }
    ensures within { IfSome result (λ read. read.0 ≤ most) }
{
    let (number, rest) = read_number(most, strip_word(text, letter)?)?;
    if number == 0 {
        None
    } else {
        Some((number, rest))
    }
}

// A process, at the front.
#[tactic(auto, unfolding(crate::specs::Reading::process_at))]
pub fn read_process(text: &[u8]) -> Option<(Pid, &[u8])>
    ensures { option_map (λ read. (read.0, read.1.now)) result ≡ process_at text.now }
{
    let (number, rest) = named(b"p", u64::from(MOST_PROCESS), text)?;
    Some((Pid(number as u8), rest))
}

#[tactic(auto, unfolding(crate::specs::Reading::label_at))]
pub fn read_label(text: &[u8]) -> Option<(Label, &[u8])>
    ensures { option_map (λ read. (read.0, read.1.now)) result ≡ label_at text.now }
{
    let (number, rest) = named(b" h", 65_535, text)?;
    Some((Label(number as u16), rest))
}

#[tactic(auto, unfolding(crate::specs::Reading::view_at))]
pub fn read_view(text: &[u8]) -> Option<(View, &[u8])>
    ensures { option_map (λ read. (read.0, read.1.now)) result ≡ view_at text.now }
{
    if let Some(rest) = strip_word(text, b" -") {
        return Some((View::Plain, rest));
    }
    let (label, rest) = read_label(text)?;
    Some((View::Transaction(label), rest))
}

pub fn read_count(most: u64, text: &[u8]) -> Option<(u64, &[u8])>
    ensures value { option_map (λ read. (read.0, read.1.now)) result ≡ behind_space (number_at most) text.now }
    ensures within { IfSome result (λ read. read.0 ≤ most) }
{
    read_number(most, strip_word(text, b" ")?)
}

// A number of at most 64 bits.
#[tactic(auto, unfolding(crate::specs::Reading::size_at))]
pub fn read_size(text: &[u8]) -> Option<(u64, &[u8])>
    ensures { option_map (λ read. (read.0, read.1.now)) result ≡ size_at text.now }
{
    read_count(u64::MAX, text)
}

// A GUID that nothing follows.
pub fn read_last_guid(text: &[u8]) -> Option<Uuid>
    ensures { result ≡ whole (behind_space guid_at) text.now }
{
    match read_guid(strip_word(text, b" ")?) {
        Some((guid, [])) => Some(guid),
        _ => None,
    }
}

#[tactic(auto, unfolding(crate::specs::Reading::durability_at))]
pub fn read_durability(text: &[u8]) -> Option<(Durability, &[u8])>
    ensures { option_map (λ read. (read.0, read.1.now)) result ≡ durability_at text.now }
{
    one_of(&[Durability::Volatile, Durability::Durable], text)
}

#[tactic(auto, unfolding(crate::specs::Reading::kind_at))]
fn read_kind(text: &[u8]) -> Option<(EnlistmentKind, &[u8])>
    ensures { option_map (λ read. (read.0, read.1.now)) result ≡ kind_at text.now }
{
    one_of(
        &[
            EnlistmentKind::Plain,
            EnlistmentKind::PrePrepare,
            EnlistmentKind::SinglePhase,
            EnlistmentKind::Both,
            EnlistmentKind::Superior,
        ],
        text,
    )
}

// The transaction of an enlistment, and its kind.
#[tactic(auto, unfolding(crate::specs::Reading::kind_in_transaction_at))]
pub fn read_kind_in_transaction(text: &[u8]) -> Option<(Label, EnlistmentKind, &[u8])>
    ensures { option_map (λ read. ((read.0, read.1), read.2.now)) result ≡ kind_in_transaction_at text.now }
{
    let (transaction, rest) = read_label(text)?;
    let (kind, rest) = read_kind(rest)?;
    Some((transaction, kind, rest))
}

#[tactic(auto, unfolding(crate::specs::Reading::access_at))]
fn read_access(text: &[u8]) -> Option<(Access, &[u8])>
    ensures { option_map (λ read. (read.0, read.1.now)) result ≡ access_at text.now }
{
    one_of(&[Access::Read, Access::Write, Access::ReadWrite], text)
}

#[tactic(auto, unfolding(crate::specs::Reading::share_at))]
fn read_share(text: &[u8]) -> Option<(ShareMode, &[u8])>
    ensures { option_map (λ read. (read.0, read.1.now)) result ≡ share_at text.now }
{
    one_of(
        &[
            ShareMode::Nothing,
            ShareMode::Read,
            ShareMode::Write,
            ShareMode::ReadWrite,
        ],
        text,
    )
}

#[tactic(auto, unfolding(crate::specs::Reading::disposition_at))]
fn read_disposition(text: &[u8]) -> Option<(Disposition, &[u8])>
    ensures { option_map (λ read. (read.0, read.1.now)) result ≡ disposition_at text.now }
{
    one_of(
        &[
            Disposition::CreateNew,
            Disposition::CreateAlways,
            Disposition::OpenExisting,
            Disposition::OpenAlways,
            Disposition::TruncateExisting,
        ],
        text,
    )
}

// How a file is opened.
#[tactic(auto, unfolding(crate::specs::Reading::modes_at))]
pub fn read_modes(text: &[u8]) -> Option<(Access, ShareMode, Disposition, &[u8])>
    ensures { option_map (λ read. ((read.0, (read.1, read.2)), read.3.now)) result ≡ modes_at text.now }
{
    let (access, rest) = read_access(text)?;
    let (share, rest) = read_share(rest)?;
    let (disposition, rest) = read_disposition(rest)?;
    Some((access, share, disposition, rest))
}

#[tactic(auto, unfolding(crate::specs::Reading::text_at))]
pub fn read_text(alloc: Global, text: &[u8]) -> Result<(Text, &[u8]), LineFault>
    ensures { GivesPart result (text_at text.now) }
{
    let text = strip_word(text, b" ").ok_or(BadLine)?;
    let (text, rest) = read_quoted(text).ok_or(BadLine)?;
    Ok((Text::new(text.to_vec(alloc)?), rest))
}

#[tactic(auto, unfolding(crate::specs::Reading::bytes_at))]
pub fn read_bytes(alloc: Global, text: &[u8]) -> Result<(Bytes, &[u8]), LineFault>
    ensures { GivesPart result (bytes_at text.now) }
{
    let (digits, rest) = split_long_word(strip_word(text, b" ").ok_or(BadLine)?);
    let bytes = read_hex_or_dash(alloc, digits)?.ok_or(BadLine)?;
    Ok((bytes, rest))
}
