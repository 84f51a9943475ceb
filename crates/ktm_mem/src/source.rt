// A source in memory.
ghost use Rattle.std.specs.Prelude.{◌≡◌, ◌≤◌, Some, length, drop, IfOk, is_err, min};
ghost use Rattle.ktm_base.specs.Count.{raised};
ghost use Rattle.ktm_base.specs.Stream.{Reads, Faults};
ghost use Rattle.ktm_mem.specs.Schedule.{fails_next, after_call, faults_after};

use crate::schedule::{Calls, Schedule};
use ktm_base::{Bytes, Failed, Source};

/// Gives its bytes from the front, as many as there is room for.
#[derive(Drop)]
pub struct MemSource {
    bytes: Bytes,
    at: usize,
    schedule: Schedule,
    faults: u64,
    ghost within: { at ≤ length bytes },
}

impl MemSource {
    ghost use Rattle.ktm_mem.specs.Objects.{left_of, source_schedule};

    pub fn new(bytes: Bytes, fails: Calls) -> Self
        ensures left { left_of result ≡ bytes }
        ensures schedule { source_schedule result ≡ record { fails = fails; calls = 0 } }
    {
        MemSource {
            bytes,
            at: 0,
            schedule: Schedule::new(fails),
            faults: 0,
        }
    }
}

impl Source for MemSource {
    ghost use Rattle.ktm_mem.specs.Objects.{left_of, source_schedule};

    ghost left = { λ s. Some (left_of s) };

    ghost faults = { λ s. s.faults };

    fn read(&mut self, buf: &mut [u8]) -> Result<usize, Failed>
        ensures count { IfOk result (λ n. n ≤ length buf.old) }
        ensures reads { Reads (Some (left_of self.old)) (Some (left_of self.new)) result buf.new }
        ensures faults { Faults (self.old.faults) (self.new.faults) result }
        ensures counts { self.new.faults ≡ faults_after result self.old.faults }
        ensures schedule { source_schedule self.new ≡ after_call (source_schedule self.old) }
        ensures fails { is_err result ≡ fails_next (source_schedule self.old) }
        ensures whole { IfOk result (λ n. n ≡ min (length (left_of self.old)) (length buf.old)) }
    {
        if self.schedule.next_fails() {
            self.faults = self.faults.saturating_add(1);
            return Err(Failed);
        }
        let rest = &self.bytes.as_slice()[self.at..];
        let n = rest.len().min(buf.len());
        buf[..n].copy_from_slice(&rest[..n]);
        self.at += n;
        Ok(n)
    }
}
