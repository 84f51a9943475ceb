// Lines as replies.
ghost use Rattle.std.specs.Prelude.{◌≡◌, ◌≢◌, ◌⊎◌, IfOk, Ok, Err};
ghost use Rattle.ktm_reply.specs.Reading.{Gives, bad_image_at, part_at, plain_at, reply_at, restarted_at, size_at, told_at};
ghost use Rattle.ktm_reply.specs.Spelling.{IsFirst, IsReply, reply_spelling};

use crate::ReplyFault;
use crate::information::behind_guid;
use crate::notification::{behind_kind, kind_named};
use crate::refusal::refusal_named;
use crate::texts::read_texts;
use crate::write::write_reply;
use ktm_base::Notify;
use ktm_codec::{
    read_guid, read_hex_or_dash, read_last_number, read_number, split_word, strip_word,
};
use ktm_world::Reply;
use std::alloc::Global;

// Behind `ok`, where the reply has no values.
#[tactic(auto, unfolding(crate::specs::Reading::plain_at))]
fn plain(text: &[u8]) -> Option<Reply>
    ensures { result ≡ plain_at text.now }
{
    if text.is_empty() {
        Some(Reply::Done)
    } else if text == b" committed".as_slice() {
        Some(Reply::Committed)
    } else if text == b" pending".as_slice() {
        Some(Reply::Pending)
    } else if text == b" LAST_RECOVER".as_slice() {
        Some(Reply::Notification {
            kind: Notify::LastRecover,
            enlistment: None,
        })
    } else {
        None
    }
}

#[tactic(auto, unfolding(crate::specs::Reading::size_at))]
fn size(text: &[u8]) -> Option<Reply>
    ensures { result ≡ size_at text.now }
{
    Some(Reply::Size(read_last_number(u64::MAX, text)?))
}

// Behind `ok ` and no quotation mark.
#[tactic(auto, unfolding(crate::specs::Reading::part_at))]
fn part(alloc: Global, text: &[u8]) -> Result<Reply, ReplyFault>
    ensures { Gives result (part_at text.now) }
{
    if let Some((guid, rest)) = read_guid(text) {
        return behind_guid(guid, rest).ok_or(ReplyFault::NotAReply);
    }
    let (word, rest) = split_word(text);
    if let Some(kind) = kind_named(word) {
        return behind_kind(kind, rest).ok_or(ReplyFault::NotAReply);
    }
    if let Some(bytes) = read_hex_or_dash(alloc, text)? {
        return Ok(Reply::Contents(bytes));
    }
    size(text).ok_or(ReplyFault::NotAReply)
}

// Behind `ok`.
#[tactic(auto, unfolding(crate::specs::Reading::told_at))]
fn told(alloc: Global, text: &[u8]) -> Result<Reply, ReplyFault>
    ensures { Gives result (told_at text.now) }
{
    if let Some(reply) = plain(text) {
        Ok(reply)
    } else if strip_word(text, b" \"").is_some() {
        let names = read_texts(alloc, text)?.ok_or(ReplyFault::NotAReply)?;
        Ok(Reply::Names(names))
    } else if let Some(rest) = strip_word(text, b" ") {
        part(alloc, rest)
    } else {
        Err(ReplyFault::NotAReply)
    }
}

#[tactic(auto, unfolding(crate::specs::Reading::restarted_at))]
fn restarted(text: &[u8]) -> Option<Reply>
    ensures { result ≡ restarted_at text.now }
{
    let (events, rest) = read_number(u64::MAX, text)?;
    let in_doubt = read_last_number(u64::from(u32::MAX), strip_word(rest, b" indoubt=")?)?;
    Some(Reply::Restarted {
        events,
        in_doubt: in_doubt as u32,
    })
}

#[tactic(auto, unfolding(crate::specs::Reading::bad_image_at))]
fn bad_image(text: &[u8]) -> Option<Reply>
    ensures { result ≡ bad_image_at text.now }
{
    Some(Reply::BadImage(read_last_number(u64::MAX, text)?))
}

#[tactic(auto, unfolding(crate::specs::Reading::reply_at))]
fn reply(alloc: Global, line: &[u8]) -> Result<Reply, ReplyFault>
    ensures { Gives result (reply_at line.now) }
{
    if let Some(rest) = strip_word(line, b"ok") {
        told(alloc, rest)
    } else if let Some(rest) = strip_word(line, b"restarted events=") {
        restarted(rest).ok_or(ReplyFault::NotAReply)
    } else if let Some(rest) = strip_word(line, b"BAD_IMAGE ") {
        bad_image(rest).ok_or(ReplyFault::NotAReply)
    } else {
        let refusal = refusal_named(line).ok_or(ReplyFault::NotAReply)?;
        Ok(Reply::Refused(refusal))
    }
}

/// The reply that the bytes spell, without a newline. Bytes that spell replies of several forms are read as the first of
/// these: `ok` as done, `ok 12` as one byte and not as a size, and texts as names and not as keys.
pub fn read_reply(alloc: Global, line: &[u8]) -> Result<Reply, ReplyFault>
    // what is read is a reply, and the bytes are its spelling and that of no earlier form
    ensures value { IfOk result (λ reply. IsReply reply × IsFirst reply × (reply_spelling reply ≡ line.now)) }
    // each such reply is read
    ensures exact { (reply : Reply) → IsReply reply → IsFirst reply → reply_spelling reply ≡ line.now
        → (result ≡ Ok reply) ⊎ (result ≡ Err ReplyFault.NoMemory) }
    // the bytes are not a reply only where they spell none
    ensures none { result ≡ Err ReplyFault.NotAReply → (reply : Reply) → IsReply reply → reply_spelling reply ≢ line.now }
{
    reply(alloc, line)
}

/// A reply of the first form with its spelling that was written is read again as it was, unless memory runs out.
pub fn law_of_round_trip(alloc: Global, reply: &Reply) -> Result<Reply, ReplyFault>
    ensures { IsReply reply.now → IsFirst reply.now → (result ≡ Ok reply.now) ⊎ (result ≡ Err ReplyFault.NoMemory) }
{
    let line = write_reply(alloc, reply)?;
    read_reply(alloc, line.as_slice())
}
