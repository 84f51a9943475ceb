// Which calls fail.
ghost use Rattle.std.specs.Prelude.{◌≡◌, ◌≤◌, ℕ, List, []};
ghost use Rattle.ktm_base.specs.Count.{raised};

use std::alloc::Global;
use std::marker::Model;

/// Numbers of calls, counted from 1.
#[derive(Drop)]
pub struct Calls {
    numbers: Vec<u64>,
}

impl Model for Calls {
    ghost Value = { List ℕ };

    ghost view = { λ c. c.numbers.items };
}

impl Calls {
    pub fn new(numbers: Vec<u64>) -> Self
        ensures { result ≡ numbers.items }
    {
        Calls { numbers }
    }

    /// No call at all.
    pub fn none(alloc: Global) -> Self
        ensures { result ≡ [] }
    {
        Calls {
            numbers: Vec::new(alloc),
        }
    }

    fn contains(&self, call: u64) -> bool
        ensures { result ≡ is_among self.now call }
    {
        self.numbers.contains(&call)
    }

    ghost use Rattle.ktm_mem.specs.Schedule.{is_among};
}

/// The calls that fail, and how many there were so far. The count stands still at its type's end.
#[derive(Drop)]
pub struct Schedule {
    pub fails: Calls,
    pub calls: u64,
}

impl Schedule {
    ghost use Rattle.ktm_mem.specs.Schedule.{fails_next};

    pub(crate) fn new(fails: Calls) -> Self
        ensures { result ≡ record { fails = fails; calls = 0 } }
    {
        Schedule { fails, calls: 0 }
    }

    /// Counts a call, and says whether it fails.
    pub(crate) fn next_fails(&mut self) -> bool
        ensures fails { result ≡ fails_next self.old }
        ensures counted { self.new ≡ record self.old { calls = raised self.old.calls } }
        ensures later { self.old.calls ≤ self.new.calls }
    {
        self.calls = self.calls.saturating_add(1);
        self.fails.contains(self.calls)
    }
}
