// Where bytes go.
ghost use Rattle.std.specs.Prelude.{ℕ, ◌≤◌, Bool, true, ◌≡◌, Option, List, length, IfOk, IsErr};
ghost use Rattle.ktm_base.specs.Stream.{Writes, Faults, TakesSome};

use crate::Failed;

/// A stream of bytes to write.
pub trait Sink {
    /// The bytes that it took, where it tells them.
    ghost taken: { Self → Option (List ℕ) };

    /// How often it failed.
    ghost faults: { Self → ℕ };

    /// Does its next write fail, whatever it is offered. A sink that cannot tell says no.
    ghost refuses: { Self → Bool };

    /// Takes some of the bytes, from their front, and says how many. It may take fewer than it is offered; to take none
    /// of some bytes is a fault, and is counted. Failed comes only where the count of faults rose.
    fn write(&mut self, bytes: &[u8]) -> Result<usize, Failed>
        ensures count { IfOk result (λ n. n ≤ length bytes.now) }
        ensures writes { Writes (taken self.old) (taken self.new) result bytes.now }
        ensures some { TakesSome result bytes.now (faults self.old) (faults self.new) }
        ensures refused { refuses self.old ≡ true → IsErr result }
        ensures faults { Faults (faults self.old) (faults self.new) result };
}
