// An enlistment, and which replies its state and the phase of its transaction allow.
ghost use Rattle.std.specs.Prelude.{◌≡◌};
ghost use Rattle.ktm_world.specs.Enlistments.{asks_pre_prepare, is_given, is_live_in, is_superior};
ghost use Rattle.ktm_world.specs.Phases.{owing};
ghost use Rattle.ktm_world.specs.Steps.{answered, is_one_of, share_of};
ghost use Rattle.ktm_phase.specs.Replies.{allows, input_of, may_set_information, may_vote, owes, recovered, replied};

use crate::allowed::{is_in_doubt, is_voting, lets_superior_roll_back, waits_for_superior};
use crate::phase::if_allowed;
use ktm_base::{Bytes, Id, Refusal};
use ktm_world::{
    Answered, EnlistmentKind, Owed, Phase, PhaseInput, Share, Transaction, TransactionOutcome, Who,
};
use std::marker::Model;

/// What a resource manager has to do with a transaction.
#[derive(Drop)]
pub struct Enlistment {
    pub id: Id,
    pub manager: Id,
    pub transaction: Id,
    pub kind: EnlistmentKind,
    /// What it owes an answer to, if it owes one.
    pub owes: Option<Owed>,
    /// It takes no part in the outcome.
    pub is_read_only: bool,
    /// It can commit and can roll back.
    pub is_prepared: bool,
    /// It has answered CommitComplete or RollbackComplete.
    pub is_finished: bool,
    /// False where a restart brought it back, until it recovers.
    pub is_recovered: bool,
    /// The recovery information.
    pub information: Bytes,
}

impl Model for Enlistment {
    ghost use Rattle.ktm_world.specs.Enlistments.{Enlistment};

    ghost Value = { Enlistment };

    ghost view = { λ e. record {
      id = e.id;
      manager = e.manager;
      transaction = e.transaction;
      kind = e.kind;
      owes = e.owes;
      is_read_only = e.is_read_only;
      is_prepared = e.is_prepared;
      is_finished = e.is_finished;
      is_recovered = e.is_recovered;
      information = e.information;
    } };
}

/// A reply of an enlistment.
#[derive(Clone, Copy)]
pub enum Vote {
    /// It has pre-prepared.
    PrePrepareComplete,
    /// It can commit and can roll back.
    PrepareComplete,
    /// It takes no part in the outcome.
    ReadOnly,
    /// It wants two phases.
    SinglePhaseReject,
    /// It has committed.
    CommitComplete,
    /// It has rolled back.
    RollbackComplete,
    /// The transaction is to roll back; a superior may ask for that too.
    Rollback,
}

impl Enlistment {
    /// What the reply comes to, where it is allowed in this phase of the transaction.
    pub fn reply(&self, phase: Phase, vote: Vote) -> Result<PhaseInput, Refusal>
        ensures { result ≡ replied phase self.now vote }
    {
        if_allowed(self.allows(phase, vote), self.input(vote))
    }

    /// What RecoverEnlistment comes to, where it is allowed in this phase of the transaction.
    pub fn recover(&self, phase: Phase) -> Result<PhaseInput, Refusal>
        ensures { result ≡ recovered phase self.now }
    {
        let is_superior = self.is_superior();
        let is_allowed = !self.is_recovered && (!is_superior || is_in_doubt(phase));
        if is_superior {
            if_allowed(is_allowed, PhaseInput::RecoverSuperior)
        } else {
            if_allowed(is_allowed, PhaseInput::Recover)
        }
    }

    /// Whether its recovery information may be set, in its transaction.
    pub fn may_set_information(&self, t: &Transaction) -> bool
        ensures { result ≡ may_set_information t.now self.now }
    {
        let is_undecided = match t.outcome {
            TransactionOutcome::Undetermined => true,
            _ => false,
        };
        if self.is_superior() {
            is_undecided && !waits_for_superior(t.phase)
        } else {
            is_undecided && !self.is_read_only && !self.is_prepared
        }
    }

    /// Whether it is live in the transaction: a superior until that has ended, another one until it is read-only or
    /// finished too.
    pub fn is_live(&self, t: &Transaction) -> bool
        ensures { result ≡ is_live_in t.now self.now }
    {
        let has_ended = match t.phase {
            Phase::Ended => true,
            _ => false,
        };
        self.transaction == t.id
            && !has_ended
            && (self.is_superior() || !self.is_read_only && !self.is_finished)
    }

    /// Whether it is the superior of its transaction.
    pub fn is_superior(&self) -> bool
        ensures { result ≡ is_superior self.now }
    {
        match self.kind {
            EnlistmentKind::Superior => true,
            _ => false,
        }
    }

    /// Whether it is one of these, of this transaction, where this enlistment calls.
    pub fn is_one_of(&self, who: Who, transaction: Id, caller: Option<Id>) -> bool
        ensures { result ≡ is_one_of transaction caller who self.now }
    {
        let is_own = self.transaction == transaction;
        let is_part = is_own && !self.is_superior() && !self.is_read_only;
        match who {
            Who::Parts => is_part,
            Who::Asking => is_part && self.asks_pre_prepare(),
            Who::Prepared => is_part && self.is_prepared && self.is_recovered,
            Who::Recovered => is_part && self.is_recovered,
            Who::Superior => is_own && self.is_superior(),
            Who::OtherSuperior => is_own && self.is_superior() && !self.is_given(caller),
            Who::Caller => self.is_given(caller),
        }
    }

    /// It owes an answer to this from now on.
    pub fn ask(&mut self, owed: Owed)
        ensures { self.new ≡ owing owed self.old }
    {
        self.owes = Some(owed);
    }

    /// It has answered so.
    pub fn answer(&mut self, answer: Answered)
        ensures { self.new ≡ answered answer self.old }
    {
        match answer {
            Answered::PrePrepared => self.owes = None,
            Answered::Prepared => {
                self.owes = None;
                self.is_prepared = true;
            }
            Answered::ReadOnly => {
                self.owes = None;
                self.is_read_only = true;
            }
            Answered::Finished => {
                self.owes = None;
                self.is_finished = true;
            }
            Answered::Recovered => self.is_recovered = true,
        }
    }

    // Is it the one with this Id, if there is one.
    fn is_given(&self, id: Option<Id>) -> bool
        ensures { result ≡ is_given id self.now }
    {
        match id {
            None => false,
            Some(id) => self.id == id,
        }
    }

    // Does it ask for PREPREPARE.
    fn asks_pre_prepare(&self) -> bool
        ensures { result ≡ asks_pre_prepare self.now }
    {
        match self.kind {
            EnlistmentKind::PrePrepare | EnlistmentKind::Both => true,
            _ => false,
        }
    }

    // Is the reply allowed in this phase.
    fn allows(&self, phase: Phase, vote: Vote) -> bool
        ensures { result ≡ allows phase self.now vote }
    {
        match vote {
            Vote::PrePrepareComplete => self.owes(Owed::PrePrepare),
            Vote::PrepareComplete => self.owes(Owed::Prepare),
            Vote::ReadOnly => self.may_vote(phase),
            Vote::SinglePhaseReject => match phase {
                Phase::SinglePhase => self.owes(Owed::Commit),
                _ => false,
            },
            Vote::CommitComplete => self.owes(Owed::Commit),
            Vote::RollbackComplete => self.owes(Owed::Rollback),
            Vote::Rollback if self.is_superior() => lets_superior_roll_back(phase),
            Vote::Rollback => self.may_vote(phase),
        }
    }

    // Is it an ordinary enlistment that has not voted yet, in a phase in which it may.
    fn may_vote(&self, phase: Phase) -> bool
        ensures { result ≡ may_vote phase self.now }
    {
        !self.is_superior() && !self.is_read_only && !self.is_prepared && is_voting(phase)
    }

    // Does it owe this answer.
    fn owes(&self, owed: Owed) -> bool
        ensures { result ≡ owes owed self.now }
    {
        match (owed, self.owes) {
            (Owed::PrePrepare, Some(Owed::PrePrepare)) => true,
            (Owed::Prepare, Some(Owed::Prepare)) => true,
            (Owed::Commit, Some(Owed::Commit)) => true,
            (Owed::Rollback, Some(Owed::Rollback)) => true,
            _ => false,
        }
    }

    // What comes to the transaction by the reply.
    fn input(&self, vote: Vote) -> PhaseInput
        ensures { result ≡ input_of self.now vote }
    {
        match vote {
            Vote::PrePrepareComplete => PhaseInput::PrePrepareComplete,
            Vote::PrepareComplete => PhaseInput::PrepareComplete,
            Vote::ReadOnly => PhaseInput::ReadOnly(self.share()),
            Vote::SinglePhaseReject => PhaseInput::SinglePhaseReject,
            Vote::CommitComplete => PhaseInput::CommitComplete,
            Vote::RollbackComplete => PhaseInput::RollbackComplete,
            Vote::Rollback => PhaseInput::Rollback,
        }
    }

    /// What it counts for, where it takes part.
    pub fn share(&self) -> Share
        ensures { result ≡ share_of self.now }
    {
        Share {
            asks: self.asks_pre_prepare(),
            allows_one_phase: match self.kind {
                EnlistmentKind::SinglePhase | EnlistmentKind::Both => true,
                _ => false,
            },
            owes: self.owes.is_some(),
        }
    }
}
