// A device of bytes that keeps what is written, until it fails.
ghost use Rattle.std.specs.Prelude.{◌≡◌, ℕ, ◌+◌, ◌≤◌, Bool, true, false, Option, List, [], ◌∷◌, length, slice_range, IfOk, OnOk, OnErr, IfSome};
ghost use Rattle.ktm_base.specs.Told.{Goes};
ghost use Rattle.ktm_base.specs.Bytes.{written, SameOutside, GrewTo, GrewTowards};
ghost use Rattle.ktm_base.specs.Doubt.{Rewrote, NoneMore};
ghost use Rattle.ktm_base.specs.Stream.{Faults};

use crate::Failed;

/// A block device. Lengths and offsets are in bytes. Failed comes only where the count of faults rose.
pub trait Block {
    /// The contents, where it tells them.
    ghost contents: { Self → Option (List ℕ) };

    /// How often it failed.
    ghost faults: { Self → ℕ };

    /// Does anything that was written or added wait to be flushed: until then the system may lose it.
    ghost waits: { Self → Bool };

    /// May the byte at a place be lost though a later flush answers Ok: a flush failed since it was written.
    ghost is_doubted: { Self → ℕ → Bool };

    fn len(&mut self) -> Result<u64, Failed>
        ensures value { IfOk result (λ n. IfSome (contents self.old) (λ bytes. n ≡ length bytes)) }
        ensures same { contents self.new ≡ contents self.old }
        ensures waits { waits self.new ≡ waits self.old }
        ensures doubted { is_doubted self.new ≡ is_doubted self.old }
        ensures faults { Faults (faults self.old) (faults self.new) result };

    /// Fills the buffer. A block that does not tell its contents fails where the range passes its end.
    fn read_at(&mut self, at: u64, buf: &mut [u8]) -> Result<(), Failed>
        requires { IfSome (contents self.old) (λ bytes. at + length buf.old ≤ length bytes) }
        ensures value { OnOk result (IfSome (contents self.old) (λ bytes. buf.new ≡ slice_range bytes at (at + length buf.old))) }
        ensures same { contents self.new ≡ contents self.old }
        ensures waits { waits self.new ≡ waits self.old }
        ensures doubted { is_doubted self.new ≡ is_doubted self.old }
        ensures faults { Faults (faults self.old) (faults self.new) result };

    /// Writes over what is there, and what is written is in no doubt. After a failure the range may hold anything.
    fn write_at(&mut self, at: u64, bytes: &[u8]) -> Result<(), Failed>
        requires { IfSome (contents self.old) (λ old. at + length bytes.now ≤ length old) }
        ensures ok { OnOk result (Goes (λ old new. new ≡ written old at bytes.now) (contents self.old) (contents self.new)) }
        ensures err { OnErr result (Goes (SameOutside ((at, length bytes.now) ∷ [])) (contents self.old) (contents self.new)) }
        ensures waits { waits self.new ≡ true }
        ensures doubted { Rewrote at (length bytes.now) (is_doubted self.old) (is_doubted self.new) result }
        ensures faults { Faults (faults self.old) (faults self.new) result };

    /// Asks the system to keep what was written and added. After a failure all of it may still wait, and any byte may be
    /// doubted: the system may report the failure once, and answer Ok to the next flush without what it lost.
    fn flush(&mut self) -> Result<(), Failed>
        ensures same { contents self.new ≡ contents self.old }
        ensures ok { OnOk result (waits self.new ≡ false) }
        ensures err { OnErr result (waits self.new ≡ waits self.old) }
        ensures doubted { OnOk result (is_doubted self.new ≡ is_doubted self.old) }
        ensures faults { Faults (faults self.old) (faults self.new) result };

    /// Makes the length at least `len`. What is added may hold anything, and is in no doubt.
    fn ensure(&mut self, len: u64) -> Result<(), Failed>
        ensures ok { OnOk result (Goes (GrewTo len) (contents self.old) (contents self.new)) }
        ensures err { OnErr result (Goes (GrewTowards len) (contents self.old) (contents self.new)) }
        ensures waits { waits self.new ≡ true }
        ensures doubted { NoneMore (is_doubted self.old) (is_doubted self.new) }
        ensures faults { Faults (faults self.old) (faults self.new) result };
}
