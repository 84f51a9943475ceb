// Texts that a call takes.
ghost use Rattle.std.specs.Prelude.{◌≡◌, ◌↔◌, IfOk, IsErrOf, IsTrue};
ghost use Rattle.ktm_world.specs.Values.{IsText, IsTextByte};
ghost use Rattle.std.specs.List.{AllByRecursion-prop};
ghost use Rattle.std.proofs.Props.{props};

use ktm_base::{Items, NoMemory};
use std::alloc::Global;
use thiserror::Error;

/// A path, a pattern or a key: printable ASCII characters, with no quotation mark among them.
#[derive(Drop)]
pub struct Text {
    pub(crate) characters: Items<u8>,
    ghost is_text: { IsText characters } by { AllByRecursion-prop IsTextByte (λ c. Prim.hlevel props) characters },
}

/// Why a text was not made.
#[derive(Clone, Copy, Debug, PartialEq, Eq, Error)]
pub enum TextFault {
    /// A character is not printable ASCII, or a quotation mark.
    #[error("not a text")]
    NotText,
    /// Out of memory.
    #[error("out of memory")]
    NoMemory,
}

// Is it a character of a text.
fn is_text_byte(byte: u8) -> bool
    ensures { IsTrue result ↔ IsTextByte byte }
{
    (0x20..=0x7e).contains(&byte) && byte != b'"'
}

// Has it characters of a text alone.
fn is_text(text: &[u8]) -> bool
    ensures { IsTrue result ↔ IsText text.now }
{
    text.iter().all(|byte| is_text_byte(*byte))
}

impl Text {
    /// A text of its own memory with these characters.
    pub fn new(alloc: Global, text: &str) -> Result<Text, TextFault>
        ensures ok { IfOk result (λ made. made.characters ≡ text.now) }
        ensures fault { IsErrOf result TextFault.NotText ↔ ¬ IsText text.now }
    {
        let characters = text.as_bytes();
        if !is_text(characters) {
            return Err(TextFault::NotText);
        }
        match characters.to_vec(alloc) {
            Ok(copy) => Ok(Text {
                characters: Items::new(copy),
            }),
            Err(_) => Err(TextFault::NoMemory),
        }
    }

    /// The same text once more.
    pub fn copy(&self, alloc: Global) -> Result<Text, NoMemory>
        ensures { IfOk result (λ copy. copy.characters ≡ self.now.characters) }
    {
        match self.characters.copy(alloc) {
            Ok(characters) => Ok(Text { characters }),
            Err(NoMemory) => Err(NoMemory),
        }
    }

    /// Its characters.
    pub fn as_bytes(&self) -> &[u8]
        ensures { result.now ≡ self.now.characters }
    {
        self.characters.as_slice()
    }
}
