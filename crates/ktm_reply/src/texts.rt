// Texts between quotation marks, each behind a space.
ghost use Rattle.std.specs.Prelude.{◌≡◌, ◌++◌, IfOk, OnOk, flat_map, option_map};
ghost use Rattle.ktm_reply.specs.Reading.{spaced_at, texts_at};
ghost use Rattle.ktm_reply.specs.Spelling.{spaced};

use ktm_base::{NoMemory, TextList};
use ktm_codec::{put_quoted, read_quoted, strip_word};
use std::alloc::Global;

fn put_spaced(out: &mut Vec<u8>, text: &[u8]) -> Result<(), NoMemory>
    ensures { OnOk result (out.new.items ≡ out.old.items ++ spaced text.now) }
{
    out.push(b' ')?;
    put_quoted(out, text)
}

pub fn put_texts(out: &mut Vec<u8>, texts: &TextList) -> Result<(), NoMemory>
    ensures { OnOk result (out.new.items ≡ out.old.items ++ flat_map spaced texts.now) }
{
    let mut rest = texts.iter();
    'texts: while let Some(text) = rest.next() {
        put_spaced(out, text)?;
    }
    Ok(())
}

// The text at the front, behind a space, and what follows it.
#[tactic(auto, unfolding(crate::specs::Reading::spaced_at))]
fn first_text(text: &[u8]) -> Option<(&[u8], &[u8])>
    ensures { option_map (λ read. (read.0.now, read.1.now)) result ≡ spaced_at text.now }
{
    read_quoted(strip_word(text, b" ")?)
}

pub fn read_texts(alloc: Global, text: &[u8]) -> Result<Option<TextList>, NoMemory>
    ensures { IfOk result (λ texts. texts ≡ texts_at text.now) }
{
    let mut texts = TextList::new(alloc);
    let mut rest = text;
    'texts: while let Some((text, after)) = first_text(rest) {
        texts.push(text)?;
        rest = after;
    }
    if rest.is_empty() {
        Ok(Some(texts))
    } else {
        Ok(None)
    }
}
