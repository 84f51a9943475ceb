// A sink in memory.
ghost use Rattle.std.specs.Prelude.{◌≡◌, ◌≤◌, ◌+◌, ◌||◌, true, Some, [], length, IfOk, IsErr, is_err, nat_lt, vec_capacity};
ghost use Rattle.ktm_base.specs.Stream.{Writes, Faults, TakesSome};
ghost use Rattle.ktm_mem.specs.Schedule.{fails_next, after_call, faults_after};

use crate::contents::put_behind;
use crate::schedule::{Calls, Schedule};
use ktm_base::{Failed, NoMemory, Sink};
use std::alloc::Global;

/// Takes all that it is offered, while there is room for all of it. A write past its room is a fault.
#[derive(Drop)]
pub struct MemSink {
    bytes: Vec<u8>,
    room: usize,
    schedule: Schedule,
    faults: u64,
    ghost within: { length bytes.items ≤ room },
    ghost taken: { room ≤ vec_capacity bytes },
}

impl MemSink {
    ghost use Rattle.ktm_mem.specs.Objects.{taken_of, sink_room, sink_schedule};

    /// With room for so many bytes.
    pub fn new(alloc: Global, room: usize, fails: Calls) -> Result<Self, NoMemory>
        ensures empty { IfOk result (λ sink. taken_of sink ≡ []) }
        ensures room { IfOk result (λ sink. sink_room sink ≡ room) }
        ensures schedule { IfOk result (λ sink. sink_schedule sink ≡ record { fails = fails; calls = 0 }) }
    {
        Ok(MemSink {
            bytes: Vec::with_capacity(alloc, room)?,
            room,
            schedule: Schedule::new(fails),
            faults: 0,
        })
    }

    /// The bytes that it took.
    pub fn bytes(&self) -> &[u8]
        ensures { result.now ≡ taken_of self.now }
    {
        &self.bytes
    }
}

impl Sink for MemSink {
    ghost use Rattle.ktm_mem.specs.Objects.{taken_of, sink_room, sink_schedule};

    ghost taken = { λ s. Some (taken_of s) };

    ghost faults = { λ s. s.faults };

    ghost refuses = { λ s. fails_next (sink_schedule s) };

    fn write(&mut self, bytes: &[u8]) -> Result<usize, Failed>
        ensures count { IfOk result (λ n. n ≤ length bytes.now) }
        ensures writes { Writes (Some (taken_of self.old)) (Some (taken_of self.new)) result bytes.now }
        ensures some { TakesSome result bytes.now (self.old.faults) (self.new.faults) }
        ensures faults { Faults (self.old.faults) (self.new.faults) result }
        ensures refused { fails_next (sink_schedule self.old) ≡ true → IsErr result }
        ensures counts { self.new.faults ≡ faults_after result self.old.faults }
        ensures schedule { sink_schedule self.new ≡ after_call (sink_schedule self.old) }
        ensures room { sink_room self.new ≡ sink_room self.old }
        ensures fails { is_err result ≡ (fails_next (sink_schedule self.old)
            || nat_lt (sink_room self.old) (length (taken_of self.old) + length bytes.now)) }
        ensures whole { IfOk result (λ n. n ≡ length bytes.now) }
    {
        let fails = self.schedule.next_fails();
        if fails || bytes.len() > self.room - self.bytes.len() {
            self.faults = self.faults.saturating_add(1);
            return Err(Failed);
        }
        put_behind(&mut self.bytes, bytes);
        Ok(bytes.len())
    }
}
