// The memory that a machine keeps from one start to the next.
use std::alloc::Global;
use std::marker::Model;

/// The memory that a machine keeps from one start to the next: for the log and what is recorded in it, and for snapshots.
#[derive(Drop)]
pub struct Buffers {
    pub(crate) log: Vec<u8>,
    pub(crate) snapshot: Vec<u8>,
}

impl Model for Buffers {
    ghost use Rattle.std.specs.Prelude.{vec_capacity};
    ghost use Rattle.ktm_kernel.specs.Buffers.{BuffersState};

    ghost Value = { BuffersState };

    ghost view = { λ b. record { log = vec_capacity b.log; snapshot = vec_capacity b.snapshot } };
}

impl Buffers {
    /// Empty ones, which grow at the first start to the length of an area each.
    pub fn new(alloc: Global) -> Self {
        Buffers {
            log: Vec::new(alloc),
            snapshot: Vec::new(alloc),
        }
    }
}
