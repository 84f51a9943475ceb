// The parts of a line as they are written, each but a process behind a space.
ghost use Rattle.std.specs.Prelude.{◌≡◌, ◌++◌, ◌∷◌, OnOk, decimal};
ghost use Rattle.ktm_codec.specs.Guid.{guid_spelling};
ghost use Rattle.ktm_codec.specs.Hex.{hex_or_dash};
ghost use Rattle.ktm_codec.specs.Quoted.{quoted};
ghost use Rattle.ktm_script.specs.Spelling.{access_spelling, disposition_spelling, label_spelling, process_spelling, share_spelling, space, view_spelling, ◌␣◌};

use crate::word::put_word;
use ktm_base::{Bytes, Label, NoMemory, Pid, Text};
use ktm_codec::{put_guid, put_hex_or_dash, put_number, put_quoted};
use ktm_world::{Access, Disposition, ShareMode, View};
use uuid::Uuid;

// A process, at the front.
pub fn put_process(out: &mut Vec<u8>, process: Pid) -> Result<(), NoMemory>
    ensures { OnOk result (out.new.items ≡ out.old.items ++ process_spelling process) }
{
    out.push(b'p')?;
    put_number(out, u64::from(process.0))
}

pub fn put_count(out: &mut Vec<u8>, number: u64) -> Result<(), NoMemory>
    ensures { OnOk result (out.new.items ≡ out.old.items ++ space ∷ decimal number) }
{
    out.push(b' ')?;
    put_number(out, number)
}

pub fn put_label(out: &mut Vec<u8>, label: Label) -> Result<(), NoMemory>
    ensures { OnOk result (out.new.items ≡ out.old.items ++ space ∷ label_spelling label) }
{
    out.extend_from_slice(b" h")?;
    put_number(out, u64::from(label.0))
}

pub fn put_view(out: &mut Vec<u8>, view: View) -> Result<(), NoMemory>
    ensures { OnOk result (out.new.items ≡ out.old.items ++ space ∷ view_spelling view) }
{
    match view {
        View::Plain => Ok(out.extend_from_slice(b" -")?),
        View::Transaction(label) => put_label(out, label),
    }
}

pub fn put_text(out: &mut Vec<u8>, text: &Text) -> Result<(), NoMemory>
    ensures { OnOk result (out.new.items ≡ out.old.items ++ space ∷ quoted text.now) }
{
    out.push(b' ')?;
    put_quoted(out, text.as_slice())
}

pub fn put_bytes(out: &mut Vec<u8>, bytes: &Bytes) -> Result<(), NoMemory>
    ensures { OnOk result (out.new.items ≡ out.old.items ++ space ∷ hex_or_dash bytes.now) }
{
    out.push(b' ')?;
    put_hex_or_dash(out, bytes.as_slice())
}

pub fn put_guid_part(out: &mut Vec<u8>, guid: &Uuid) -> Result<(), NoMemory>
    ensures { OnOk result (out.new.items ≡ out.old.items ++ space ∷ guid_spelling guid.now) }
{
    out.push(b' ')?;
    put_guid(out, guid)
}

// How a file is opened.
pub fn put_modes(
    out: &mut Vec<u8>,
    access: Access,
    share: ShareMode,
    disposition: Disposition,
) -> Result<(), NoMemory>
    ensures { OnOk result (out.new.items ≡ out.old.items ++ space ∷ (access_spelling access ␣ share_spelling share ␣ disposition_spelling disposition)) }
{
    put_word(out, access)?;
    put_word(out, share)?;
    put_word(out, disposition)
}

// How a file is opened, and the label of the transaction in which it is.
pub fn put_modes_and_label(
    out: &mut Vec<u8>,
    access: Access,
    share: ShareMode,
    disposition: Disposition,
    transaction: Label,
) -> Result<(), NoMemory>
    ensures { OnOk result (out.new.items ≡ out.old.items ++ space ∷ (access_spelling access ␣ share_spelling share ␣ disposition_spelling disposition ␣ label_spelling transaction)) }
{
    put_modes(out, access, share, disposition)?;
    put_label(out, transaction)
}
