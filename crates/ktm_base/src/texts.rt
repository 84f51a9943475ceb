// Texts in a row, which stand one behind another in one piece of memory.
ghost use Rattle.std.specs.Prelude.{◌≡◌, ◌++◌, ◌∷◌, ◌↔◌, [], IsTrue, MatchOption, OnErr, OnOk, length};

use crate::NoMemory;
use std::alloc::Global;
use std::marker::Model;

/// Texts in a row: names or keys.
#[derive(Drop)]
pub struct TextList {
    // The characters of all, and how many each text has.
    characters: Vec<u8>,
    lengths: Vec<usize>,
}

impl Model for TextList {
    ghost use Rattle.std.specs.Prelude.{◌≡◌, ℕ, List, length, sum};
    ghost use Rattle.ktm_base.specs.Pieces.{pieces};

    ghost Value = { List (List ℕ) };

    ghost view = { λ t. pieces t.lengths.items t.characters.items };

    ghost invariant = { λ t. sum t.lengths.items ≡ length t.characters.items };
}

impl TextList {
    pub fn new(alloc: Global) -> Self
        ensures { result ≡ [] }
    {
        TextList {
            characters: Vec::new(alloc),
            lengths: Vec::new(alloc),
        }
    }

    /// Puts a text behind the others, whose characters are in two parts.
    pub fn push_parts(&mut self, front: &[u8], back: &[u8]) -> Result<(), NoMemory>
        ensures ok { OnOk result (self.new ≡ self.old ++ (front.now ++ back.now) ∷ []) }
        ensures err { OnErr result (self.new ≡ self.old) }
    {
        let Some(length) = front.len().checked_add(back.len()) else {
            return Err(NoMemory);
        };
        self.lengths.reserve(1)?;
        self.characters.reserve(length)?;
        self.characters.extend_from_slice(front)?;
        self.characters.extend_from_slice(back)?;
        self.lengths.push_reserved(length);
        Ok(())
    }

    /// Puts a text behind the others.
    pub fn push(&mut self, text: &[u8]) -> Result<(), NoMemory>
        ensures ok { OnOk result (self.new ≡ self.old ++ text.now ∷ []) }
        ensures err { OnErr result (self.new ≡ self.old) }
    {
        self.lengths.reserve(1)?;
        self.characters.extend_from_slice(text)?;
        self.lengths.push_reserved(text.len());
        Ok(())
    }

    pub fn is_empty(&self) -> bool
        ensures { IsTrue result ↔ (self.now ≡ []) }
    {
        self.lengths.is_empty()
    }

    /// The texts, one after another.
    pub fn iter(&self) -> Texts<'_>
        ensures { result ≡ self.now }
    {
        Texts {
            characters: &self.characters,
            lengths: &self.lengths,
        }
    }
}

/// The texts that are left of those in a row.
#[derive(Drop)]
pub struct Texts<'a> {
    characters: &'a [u8],
    lengths: &'a [usize],
}

impl<'a> Model for Texts<'a> {
    ghost use Rattle.std.specs.Prelude.{◌≡◌, ℕ, List, length, sum};
    ghost use Rattle.ktm_base.specs.Pieces.{pieces};

    ghost Value = { List (List ℕ) };

    ghost view = { λ t. pieces t.lengths.now t.characters.now };

    ghost invariant = { λ t. sum t.lengths.now ≡ length t.characters.now };
}

impl<'a> Texts<'a> {
    /// Takes the first one out, if one is left.
    pub fn next(&mut self) -> Option<&'a [u8]>
        ensures { MatchOption result ((self.old ≡ []) × (self.new ≡ [])) (λ text. self.old ≡ text.now ∷ self.new) }
    {
        let [length, lengths @ ..] = self.lengths else {
            return None;
        };
        let (text, characters) = self.characters.split_at(*length);
        self.characters = characters;
        self.lengths = lengths;
        Some(text)
    }
}
