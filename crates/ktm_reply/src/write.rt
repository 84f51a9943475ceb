// Replies as lines.
ghost use Rattle.std.specs.Prelude.{◌≡◌, ◌++◌, IfOk, OnOk, codes, decimal, flat_map};
ghost use Rattle.ktm_codec.specs.Guid.{guid_spelling};
ghost use Rattle.ktm_codec.specs.Hex.{hex_or_dash};
ghost use Rattle.ktm_reply.specs.Spelling.{notification_spelling, reply_spelling, spaced};
ghost use Rattle.ktm_reply.specs.States.{outcome_name, state_name};
ghost use Rattle.ktm_world.specs.declared.reply.Reply.TheVariants.{Restarted};

use crate::information::{outcome_name, state_name};
use crate::notification::kind_name;
use crate::refusal::refusal_name;
use crate::texts::put_texts;
use ktm_base::{Bytes, NoMemory, Notify, TextList};
use ktm_codec::{put_guid, put_hex_or_dash, put_number};
use ktm_world::{Reply, TransactionOutcome, TransactionState};
use std::alloc::Global;
use uuid::Uuid;

fn put(out: &mut Vec<u8>, text: &[u8]) -> Result<(), NoMemory>
    ensures { OnOk result (out.new.items ≡ out.old.items ++ text.now) }
{
    Ok(out.extend_from_slice(text)?)
}

fn put_with_number(out: &mut Vec<u8>, text: &[u8], number: u64) -> Result<(), NoMemory>
    ensures { OnOk result (out.new.items ≡ out.old.items ++ text.now ++ decimal number) }
{
    put(out, text)?;
    put_number(out, number)
}

fn put_ok_and_guid(out: &mut Vec<u8>, guid: &Uuid) -> Result<(), NoMemory>
    ensures { OnOk result (out.new.items ≡ out.old.items ++ codes "ok " ++ guid_spelling guid.now) }
{
    put(out, b"ok ")?;
    put_guid(out, guid)
}

// A name behind a space.
fn put_name(out: &mut Vec<u8>, name: &[u8]) -> Result<(), NoMemory>
    ensures { OnOk result (out.new.items ≡ out.old.items ++ codes " " ++ name.now) }
{
    put(out, b" ")?;
    put(out, name)
}

fn put_information(
    out: &mut Vec<u8>,
    transaction: &Uuid,
    state: TransactionState,
    outcome: TransactionOutcome,
) -> Result<(), NoMemory>
    ensures { OnOk result (out.new.items ≡ out.old.items ++ codes "ok " ++ guid_spelling transaction.now ++ codes " " ++ state_name state ++ codes " " ++ outcome_name outcome) }
{
    put_ok_and_guid(out, transaction)?;
    put_name(out, state_name(state))?;
    put_name(out, outcome_name(outcome))
}

fn put_notification(
    out: &mut Vec<u8>,
    kind: Notify,
    enlistment: &Option<Uuid>,
) -> Result<(), NoMemory>
    ensures { OnOk result (out.new.items ≡ out.old.items ++ codes "ok " ++ notification_spelling kind enlistment.now) }
{
    put(out, b"ok ")?;
    put(out, kind_name(kind))?;
    let Some(enlistment) = enlistment else {
        return Ok(());
    };
    put(out, b" ")?;
    put_guid(out, enlistment)
}

fn put_contents(out: &mut Vec<u8>, bytes: &Bytes) -> Result<(), NoMemory>
    ensures { OnOk result (out.new.items ≡ out.old.items ++ codes "ok " ++ hex_or_dash bytes.now) }
{
    put(out, b"ok ")?;
    put_hex_or_dash(out, bytes.as_slice())
}

fn put_list(out: &mut Vec<u8>, texts: &TextList) -> Result<(), NoMemory>
    ensures { OnOk result (out.new.items ≡ out.old.items ++ codes "ok" ++ flat_map spaced texts.now) }
{
    put(out, b"ok")?;
    put_texts(out, texts)
}

fn put_restarted(out: &mut Vec<u8>, events: u64, in_doubt: u32) -> Result<(), NoMemory>
    ensures { OnOk result (out.new.items ≡ out.old.items ++ reply_spelling (Restarted events in_doubt)) }
{
    put_with_number(out, b"restarted events=", events)?;
    put_with_number(out, b" indoubt=", u64::from(in_doubt))
}

/// Writes the line that a reply is at the end, without a newline.
pub fn put_reply(out: &mut Vec<u8>, reply: &Reply) -> Result<(), NoMemory>
    ensures { OnOk result (out.new.items ≡ out.old.items ++ reply_spelling reply.now) }
{
    match reply {
        Reply::Refused(refusal) => put(out, refusal_name(*refusal)),
        Reply::Done => put(out, b"ok"),
        Reply::Guid(guid) => put_ok_and_guid(out, guid),
        Reply::Committed => put(out, b"ok committed"),
        Reply::Pending => put(out, b"ok pending"),
        Reply::Information {
            transaction,
            state,
            outcome,
        } => put_information(out, transaction, *state, *outcome),
        Reply::Notification { kind, enlistment } => put_notification(out, *kind, enlistment),
        Reply::Contents(bytes) => put_contents(out, bytes),
        Reply::Size(size) => put_with_number(out, b"ok ", *size),
        Reply::Names(texts) | Reply::Keys(texts) => put_list(out, texts),
        Reply::Restarted { events, in_doubt } => put_restarted(out, *events, *in_doubt),
        Reply::BadImage(offset) => put_with_number(out, b"BAD_IMAGE ", *offset),
    }
}

/// The line that a reply is, without a newline.
pub fn write_reply(alloc: Global, reply: &Reply) -> Result<Bytes, NoMemory>
    ensures { IfOk result (λ line. line ≡ reply_spelling reply.now) }
{
    let mut line = Vec::new(alloc);
    put_reply(&mut line, reply)?;
    Ok(Bytes::new(line))
}
