// GUIDs in the lower-case hyphenated form.
ghost use Rattle.std.specs.Prelude.{◌≡◌, ◌++◌, ℕ, List, OnOk, Some, length, option_map, take};
ghost use Rattle.ktm_base.specs.Bytes.{AreBytes};
ghost use Rattle.ktm_codec.specs.Guid.{guid_at, guid_spelling};
ghost use Rattle.ktm_codec.specs.Word.{after_word};
ghost use Rattle.uuid.specs.Text.{parsed_hyphenated};

use crate::strip_word;
use ktm_base::NoMemory;
use uuid::Uuid;

/// Writes a GUID at the end, in 36 characters with lower-case letters.
pub fn put_guid(out: &mut Vec<u8>, guid: &Uuid) -> Result<(), NoMemory>
    ensures { OnOk result (out.new.items ≡ out.old.items ++ guid_spelling guid.now) }
{
    let mut buffer = Uuid::encode_buffer();
    let text = guid.hyphenated().encode_lower(&mut buffer);
    Ok(out.extend_from_slice(text.as_bytes())?)
}

// The GUID that the 36 characters at the front stand for, with letters of either case.
fn guid_of_front(text: &[u8]) -> Option<Uuid>
    ensures { result ≡ parsed_hyphenated (take 36 text.now) }
{
    Uuid::try_parse_ascii(text.get(..36)?).ok()
}

// What follows the spelling of the GUID at the front.
fn strip_guid<'a>(text: &'a [u8], guid: &Uuid) -> Option<&'a [u8]>
    ensures { option_map (λ rest. rest.now) result ≡ after_word (guid_spelling guid.now) text.now }
{
    let mut buffer = Uuid::encode_buffer();
    let spelled = guid.hyphenated().encode_lower(&mut buffer);
    strip_word(text, spelled.as_bytes())
}

/// The GUID that the 36 characters at the front spell, and what follows them.
#[tactic(auto, unfolding(crate::specs::Guid::guid_at))]
pub fn read_guid(text: &[u8]) -> Option<(Uuid, &[u8])>
    ensures { option_map (λ read. (read.0, read.1.now)) result ≡ guid_at text.now }
{
    let guid = guid_of_front(text)?;
    let rest = strip_guid(text, &guid)?;
    Some((guid, rest))
}

/// What is read is spelled so, and what is spelled so is read, whatever follows it.
pub fn law_of_guids()
    ensures found { (text guid rest : List ℕ) → guid_at text ≡ Some (guid, rest)
        → (length guid ≡ 16) × AreBytes guid × (text ≡ guid_spelling guid ++ rest) }
    ensures every { (guid rest : List ℕ) → length guid ≡ 16 → AreBytes guid → guid_at (guid_spelling guid ++ rest) ≡ Some (guid, rest) }
{}
