// A sink over standard output.
ghost use Rattle.std.specs.Prelude.{◌≡◌, ◌<◌, ◌≤◌, false, None, IfOk, length};
ghost use Rattle.ktm_base.specs.Stream.{Faults};
ghost use Rattle.ktm_os.specs.Count.{counted};

use crate::count::count_failure;
use crate::interrupted::write_some;
use ktm_base::{Failed, Sink};
use std::io::{self, Print};

/// Standard output. Each write is one call of the system and waits in no buffer; one of no bytes too, which fails where
/// standard output is closed.
#[derive(Drop)]
pub struct StdSink<R> {
    rt: R,
    faults: u64,
}

impl<R: Print> StdSink<R> {
    pub fn new(rt: R) -> StdSink<R>
        ensures faults { result.faults ≡ 0 }
        ensures rt { result.rt ≡ rt }
    {
        StdSink { rt, faults: 0 }
    }

    /// How often it failed.
    pub fn faults(&self) -> u64
        ensures { result ≡ self.now.faults }
    {
        self.faults
    }
}

impl<R: Print> Sink for StdSink<R> {
    ghost taken = { λ _. None };

    ghost faults = { λ s. s.faults };

    ghost refuses = { λ _. false };

    fn write(&mut self, bytes: &[u8]) -> Result<usize, Failed>
        ensures count { IfOk result (λ n. n ≤ length bytes.now) }
        ensures some { IfOk result (λ n. 0 < length bytes.now → 0 < n) }
        ensures faults { Faults self.old.faults self.new.faults result }
        ensures counts { self.new.faults ≡ counted result self.old.faults }
    {
        count_failure(take_some(&self.rt, bytes), &mut self.faults)
    }
}

/// Writes some of the bytes. To take none of some bytes is a failure.
fn take_some<R: Print>(rt: &R, bytes: &[u8]) -> io::Result<usize>
    ensures bound { IfOk result (λ n. n ≤ length bytes.now) }
    ensures some { IfOk result (λ n. 0 < length bytes.now → 0 < n) }
{
    match write_some(rt, bytes) {
        Ok(0) if !bytes.is_empty() => Err(io::ErrorKind::WriteZero.into()),
        done => done,
    }
}
