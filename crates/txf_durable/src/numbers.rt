// Numbers of files.
ghost use Rattle.std.specs.Prelude.{◌≡◌, ◌+◌, ◌<◌, ◌≤◌, [], IsOk, OnOk, length, vec_capacity, vec_len};
ghost use Rattle.std.specs.List.{insert};
ghost use Rattle.ktm_world.specs.Committed.{with_number, without_number};
ghost use Rattle.txf_durable.specs.Numbers.{AreNumbersRising};

use ktm_base::NoMemory;
use std::alloc::Global;
use std::marker::Model;

/// Numbers that rise, in room that stays. One is found by halves.
#[derive(Drop)]
pub struct FileNumbers {
    items: Vec<u64>,
}

impl Model for FileNumbers {
    ghost use Rattle.std.specs.Prelude.{vec_capacity};
    ghost use Rattle.txf_durable.specs.Numbers.{FileNumbersState, AreNumbersRising};

    ghost Value = { FileNumbersState };

    ghost view = { λ n. record { numbers = n.items.items; room = vec_capacity n.items } };

    ghost invariant = { λ n. AreNumbersRising n.items.items };
}

// Puts the number before what stands at this place. There is room for it.
fn insert_reserved(items: &mut Vec<u64>, place: usize, number: u64)
    requires bound { place ≤ vec_len items.old }
    requires room { vec_len items.old < vec_capacity items.old }
    ensures items { items.new.items ≡ insert items.old.items place number }
    ensures len { vec_len items.new ≡ vec_len items.old + 1 }
    ensures capacity { vec_capacity items.new ≡ vec_capacity items.old }
{
    let _ = items.insert(place, number);
}

impl FileNumbers {
    /// No numbers.
    pub fn new(alloc: Global) -> Self
        ensures { result.numbers ≡ [] }
    {
        FileNumbers {
            items: Vec::new(alloc),
        }
    }

    /// Makes room for so many numbers, and takes out those that are there.
    pub fn reserve(&mut self, n: usize) -> Result<(), NoMemory>
        ensures room { OnOk result (n ≤ self.new.room) }
        ensures enough { n ≤ self.old.room → IsOk result }
        ensures grows { self.old.room ≤ self.new.room }
    {
        self.items.clear();
        self.items.reserve(n)?;
        Ok(())
    }

    pub fn as_slice(&self) -> &[u64]
        ensures numbers { result.now ≡ self.now.numbers }
        ensures rising { AreNumbersRising result.now }
    {
        &self.items
    }

    // Takes all numbers out.
    pub(crate) fn clear(&mut self)
        ensures numbers { self.new.numbers ≡ [] }
        ensures room { self.new.room ≡ self.old.room }
    {
        self.items.clear();
    }

    // Puts a number at its place, unless it is there.
    pub(crate) fn put(&mut self, number: u64)
        requires { length self.old.numbers < self.old.room }
        ensures numbers { self.new.numbers ≡ with_number self.old.numbers number }
        ensures few { length self.new.numbers ≤ length self.old.numbers + 1 }
        ensures room { self.new.room ≡ self.old.room }
    {
        if let Err(place) = self.items.binary_search(&number) {
            insert_reserved(&mut self.items, place, number);
        }
    }

    // Takes a number out, if it is there.
    pub(crate) fn remove(&mut self, number: u64)
        ensures numbers { self.new.numbers ≡ without_number self.old.numbers number }
        ensures few { length self.new.numbers ≤ length self.old.numbers }
        ensures room { self.new.room ≡ self.old.room }
    {
        if let Ok(place) = self.items.binary_search(&number) {
            self.items.remove(place);
        }
    }
}
