// Texts between quotation marks.
ghost use Rattle.std.specs.Prelude.{◌≡◌, ◌++◌, [], ℕ, List, OnOk, Some, option_map};
ghost use Rattle.ktm_codec.specs.Quoted.{AreTextBytes, quoted, quoted_at, text_from};

use ktm_base::NoMemory;

// The characters up to the next quotation mark, and what follows that.
#[tactic(auto, unfolding(crate::specs::Quoted::text_from))]
fn to_quotation_mark(text: &[u8]) -> Option<(&[u8], &[u8])>
    ensures { option_map (λ read. (read.0.now, read.1.now)) result ≡ text_from [] text.now }
{
    for (index, byte) in text.iter().enumerate() {
        match byte {
            b'"' => return Some((&text[..index], &text[index + 1..])),
            0x20..=0x7E => {}
            _ => return None,
        }
    }
    None
}

/// Writes a text at the end, between quotation marks.
pub fn put_quoted(out: &mut Vec<u8>, text: &[u8]) -> Result<(), NoMemory>
    ensures { OnOk result (out.new.items ≡ out.old.items ++ quoted text.now) }
{
    out.push(b'"')?;
    out.extend_from_slice(text)?;
    out.push(b'"')?;
    Ok(())
}

/// The text between quotation marks at the front, and what follows it. A byte below 0x20 or above 0x7E is in no text.
#[tactic(auto, unfolding(crate::specs::Quoted::quoted_at))]
pub fn read_quoted(text: &[u8]) -> Option<(&[u8], &[u8])>
    ensures { option_map (λ read. (read.0.now, read.1.now)) result ≡ quoted_at text.now }
{
    match text {
        [b'"', rest @ ..] => to_quotation_mark(rest),
        _ => None,
    }
}

/// What is read is spelled so, and what is spelled so is read, whatever follows it.
pub fn law_of_quoted()
    ensures found { (text t rest : List ℕ) → quoted_at text ≡ Some (t, rest) → AreTextBytes t × (text ≡ quoted t ++ rest) }
    ensures every { (t rest : List ℕ) → AreTextBytes t → quoted_at (quoted t ++ rest) ≡ Some (t, rest) }
{}
