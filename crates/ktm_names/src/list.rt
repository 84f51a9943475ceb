// A list of texts in two allocations, which contracts see as a list of lists.
ghost use Rattle.std.specs.Prelude.{◌≡◌, ◌<◌, Some, [], ◌∷◌, ◌++◌, IfOk, OnOk, length, map, slice_get};

use ktm_base::NoMemory;
use std::alloc::Global;
use std::marker::Model;

/// Where a text begins and ends in the bytes of its list.
#[derive(Clone, Copy)]
struct Span {
    start: usize,
    end: usize,
}

/// The bytes of the texts, one after the other, and the place of each.
#[derive(Drop)]
pub struct PlacedTexts {
    bytes: Vec<u8>,
    places: Vec<Span>,
}

impl Model for PlacedTexts {
    ghost use Rattle.std.specs.Prelude.{ℕ, List, map};

    ghost Value = { List (List ℕ) };

    ghost use Rattle.ktm_names.specs.Places.{AreWithin, text_at};

    ghost view = { λ l. map (text_at l.bytes.items) l.places.items };

    ghost invariant = { λ l. AreWithin l.bytes.items l.places.items };
}

impl PlacedTexts {
    /// An empty list.
    pub fn new(alloc: Global) -> Self
        ensures { result ≡ [] }
    {
        PlacedTexts {
            bytes: Vec::new(alloc),
            places: Vec::new(alloc),
        }
    }

    // Puts a text at the end.
    fn push(&mut self, text: &[u8]) -> Result<(), NoMemory>
        ensures { OnOk result (self.new ≡ self.old ++ text.now ∷ []) }
    {
        let start = self.bytes.len();
        self.bytes.extend_from_slice(text)?;
        let end = self.bytes.len();
        self.places.push(Span { start, end })?;
        Ok(())
    }

    /// A list of these texts.
    pub fn of(alloc: Global, texts: &[&[u8]]) -> Result<Self, NoMemory>
        ensures { IfOk result (λ list. list ≡ map (λ text. text.now) texts.now) }
    {
        let mut list = PlacedTexts::new(alloc);
        for text in texts {
            list.push(text)?;
        }
        Ok(list)
    }

    pub fn len(&self) -> usize
        ensures { result ≡ length self.now }
    {
        self.places.len()
    }

    pub fn get(&self, index: usize) -> &[u8]
        requires { index < length self.now }
        ensures { slice_get self.now index ≡ Some result.now }
    {
        let place = self.places[index];
        &self.bytes[place.start..place.end]
    }
}
