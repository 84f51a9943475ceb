// The calls of a superior, by which it leads its transaction to the end.
ghost use Rattle.std.specs.Prelude.{◌≡◌};
ghost use Rattle.ktm_phase.specs.Replies.{commanded, lets, input_by};

use crate::allowed::{before_pre_prepare, before_prepare, waits_for_superior};
use crate::enlistment::Enlistment;
use crate::phase::if_allowed;
use ktm_base::Refusal;
use ktm_world::{Phase, PhaseInput};

/// A call that only a superior may make.
#[derive(Clone, Copy)]
pub enum SuperiorCall {
    /// Its transaction is to pre-prepare.
    PrePrepare,
    /// Its transaction is to prepare.
    Prepare,
    /// Its transaction commits.
    Commit,
}

impl SuperiorCall {
    /// What the call of this enlistment comes to, where it is a superior, and this phase of the transaction allows it.
    pub fn step(self, e: &Enlistment, phase: Phase) -> Result<PhaseInput, Refusal>
        ensures { result ≡ commanded phase e.now self }
    {
        if e.is_superior() {
            if_allowed(self.is_let(phase), self.input())
        } else {
            Err(Refusal::EnlistmentNotSuperior)
        }
    }

    // Does this phase let a superior make the call.
    fn is_let(self, phase: Phase) -> bool
        ensures { result ≡ lets phase self }
    {
        match self {
            SuperiorCall::PrePrepare => before_pre_prepare(phase),
            SuperiorCall::Prepare => before_prepare(phase),
            SuperiorCall::Commit => waits_for_superior(phase),
        }
    }

    // What comes to the transaction by the call.
    fn input(self) -> PhaseInput
        ensures { result ≡ input_by self }
    {
        match self {
            SuperiorCall::PrePrepare => PhaseInput::PrePrepare,
            SuperiorCall::Prepare => PhaseInput::Prepare,
            SuperiorCall::Commit => PhaseInput::Commit,
        }
    }
}
