// Contents that stay as they are.
ghost use Rattle.std.specs.Prelude.{◌≡◌, ◌↔◌, [], length, IsTrue};

use crate::content::Content;
use crate::lent::PlacedRef;
use std::marker::Model;

/// A content that stays as it is. Contracts see the place of each byte.
#[derive(Debug, Drop)]
pub struct Placed {
    content: Content,
}

impl Model for Placed {
    ghost use Rattle.std.specs.Prelude.{ℕ, List};

    ghost Value = { List ℕ };

    ghost view = { λ p. p.content.bytes };
}

impl Placed {
    pub fn new(content: Content) -> Placed
        ensures { result ≡ content.bytes }
    {
        Placed { content }
    }

    pub fn content(&self) -> &Content
        ensures { result.now.bytes ≡ self.now }
    {
        &self.content
    }

    /// The content that it was made from, which can change again.
    pub fn into_content(self) -> Content
        ensures { result.bytes ≡ self }
    {
        let Placed { content } = self;
        content
    }

    /// How many bytes there are.
    pub fn len(&self) -> u64
        ensures { result ≡ length self.now }
    {
        self.content.len()
    }

    /// Are there no bytes.
    pub fn is_empty(&self) -> bool
        ensures { IsTrue result ↔ (self.now ≡ []) }
    {
        self.content.is_empty()
    }

    /// The content, lent.
    pub fn lend(&self) -> PlacedRef<'_>
        ensures { result ≡ self.now }
    {
        self.content.lend()
    }
}
