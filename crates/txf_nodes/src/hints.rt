// Where nodes are looked for first.
use ktm_base::NoMemory;
use ktm_links::Key;
use std::alloc::Global;

// How many keys are kept at most.
const PLACES: usize = 1024;

// The place of the number.
fn place_of(number: u64) -> usize {
    (number % PLACES as u64) as usize
}

/// Where the nodes stand that came last. A key of it may name no node any more, or one with another number, so who takes it looks at
/// the node.
#[derive(Drop)]
pub(crate) struct Hints {
    // Of each number modulo 1,024 the key of the last node that came.
    keys: Vec<Option<Key>>,
}

impl Hints {
    /// No hint. It takes no memory.
    pub(crate) fn new(alloc: Global) -> Self {
        Hints {
            keys: Vec::new(alloc),
        }
    }

    /// Takes the memory for all hints, where it was not taken before.
    pub(crate) fn reserve(&mut self) -> Result<(), NoMemory> {
        if self.keys.is_empty() {
            self.keys.resize(PLACES, None)?;
        }
        Ok(())
    }

    /// The key under which the node with this number stands, if it does, and was the last that came at its place.
    pub(crate) fn get(&self, number: u64) -> Option<Key> {
        match self.keys.get(place_of(number)) {
            Some(hint) => *hint,
            None => None,
        }
    }

    /// A node with this number came, and has the key. It takes no memory.
    pub(crate) fn note(&mut self, number: u64, key: Key) {
        if let Some(hint) = self.keys.get_mut(place_of(number)) {
            *hint = Some(key);
        }
    }
}
