// Values that are spelled by one word of a few.
ghost use Rattle.std.specs.Prelude.{◌≡◌, ◌++◌, ◌∷◌, ℕ, List, OnOk, option_map};
ghost use Rattle.ktm_script.specs.Reading.{by_word, one_of};
ghost use Rattle.ktm_script.specs.Spelling.{access_spelling, disposition_spelling, durability_spelling, kind_spelling, share_spelling, space};

use ktm_base::NoMemory;
use ktm_codec::{is_word, split_word, strip_word};
use ktm_world::{Access, Disposition, Durability, EnlistmentKind, ShareMode};

/// A value that is spelled by a word.
pub trait Word: Copy {
    ghost spelled: { Self → List ℕ };

    /// Its word.
    fn word(self) -> &'static [u8]
        ensures { result.now ≡ spelled self };
}

impl Word for Access {
    ghost spelled = { access_spelling };

    fn word(self) -> &'static [u8] {
        match self {
            Access::Read => b"r",
            Access::Write => b"w",
            Access::ReadWrite => b"rw",
        }
    }
}

impl Word for ShareMode {
    ghost spelled = { share_spelling };

    fn word(self) -> &'static [u8] {
        match self {
            ShareMode::Nothing => b"-",
            ShareMode::Read => b"r",
            ShareMode::Write => b"w",
            ShareMode::ReadWrite => b"rw",
        }
    }
}

impl Word for Disposition {
    ghost spelled = { disposition_spelling };

    fn word(self) -> &'static [u8] {
        match self {
            Disposition::CreateNew => b"CREATE_NEW",
            Disposition::CreateAlways => b"CREATE_ALWAYS",
            Disposition::OpenExisting => b"OPEN_EXISTING",
            Disposition::OpenAlways => b"OPEN_ALWAYS",
            Disposition::TruncateExisting => b"TRUNCATE_EXISTING",
        }
    }
}

impl Word for Durability {
    ghost spelled = { durability_spelling };

    fn word(self) -> &'static [u8] {
        match self {
            Durability::Volatile => b"volatile",
            Durability::Durable => b"durable",
        }
    }
}

impl Word for EnlistmentKind {
    ghost spelled = { kind_spelling };

    fn word(self) -> &'static [u8] {
        match self {
            EnlistmentKind::Plain => b"plain",
            EnlistmentKind::PrePrepare => b"preprepare",
            EnlistmentKind::SinglePhase => b"singlephase",
            EnlistmentKind::Both => b"both",
            EnlistmentKind::Superior => b"superior",
        }
    }
}

// The value that has this word.
#[tactic(auto, unfolding(crate::specs::Reading::by_word))]
pub fn by_word<W: Word>(values: &[W], word: &[u8]) -> Option<W>
    ensures { result ≡ by_word W.spelled values.now word.now }
{
    values
        .iter()
        .copied()
        .find(|value| is_word(value.word(), word))
}

// One of the values, by its word behind a space, and what follows it.
#[tactic(auto, unfolding(crate::specs::Reading::one_of))]
pub fn one_of<'a, W: Word>(values: &[W], text: &'a [u8]) -> Option<(W, &'a [u8])>
    ensures { option_map (λ read. (read.0, read.1.now)) result ≡ one_of W.spelled values.now text.now }
{
    let (word, rest) = split_word(strip_word(text, b" ")?);
    Some((by_word(values, word)?, rest))
}

// Writes a space and the word of a value.
pub fn put_word<W: Word>(out: &mut Vec<u8>, value: W) -> Result<(), NoMemory>
    ensures { OnOk result (out.new.items ≡ out.old.items ++ space ∷ W.spelled value) }
{
    out.push(b' ')?;
    out.extend_from_slice(value.word())?;
    Ok(())
}
