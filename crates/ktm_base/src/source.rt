// Where bytes come from.
ghost use Rattle.std.specs.Prelude.{ℕ, ◌≤◌, Option, List, length, IfOk};
ghost use Rattle.ktm_base.specs.Stream.{Reads, Faults};

use crate::Failed;

/// A stream of bytes to read.
pub trait Source {
    /// The bytes that are left, where it tells them.
    ghost left: { Self → Option (List ℕ) };

    /// How often it failed.
    ghost faults: { Self → ℕ };

    /// Reads some of the bytes that are left into the front of the buffer, and says how many. None, where the buffer
    /// has room, means that the input is at its end. Failed comes only where the count of faults rose.
    fn read(&mut self, buf: &mut [u8]) -> Result<usize, Failed>
        ensures count { IfOk result (λ n. n ≤ length buf.old) }
        ensures reads { Reads (left self.old) (left self.new) result buf.new }
        ensures faults { Faults (faults self.old) (faults self.new) result };
}
