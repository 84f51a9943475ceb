// The phase table: what happens by each procedure and each answer.
ghost use Rattle.std.specs.Prelude.{◌≡◌, ◌≤◌, ◌++◌};
ghost use Rattle.arrayvec.specs.ArrayVec.{array_vec_len};
ghost use Rattle.ktm_world.specs.Rows.{aborts, all_readies, commit_completes, commits, commits_one, proceeds, proceeds_without, pre_prepare_completes, pre_prepares, prepare_completes, prepares, prepares_all, read_onlies, recovers, recovers_superior, rejects_one_phase, requests, rollback_completes};

use crate::phase::{Steps, is_last, participants, without};
use ktm_base::Notify;
use ktm_world::{Answered, Fact, Owed, Phase, Seen, Share, Step, TransactionOutcome, Who};

/// It commits.
pub fn commit(steps: &mut Steps)
    requires room { array_vec_len steps.old ≤ 4 }
    ensures items { steps.new.items ≡ steps.old.items ++ commits }
{
    steps.push(Step::Record(Fact::Decide));
    steps.push(Step::Record(Fact::DoneFiles));
    steps.push(Step::Record(Fact::DoneKeys));
    steps.push(Step::Commit);
    steps.push(Step::Decide(TransactionOutcome::Committed));
    steps.push(Step::Enter(Phase::Committing));
    steps.push(Step::Ask(Who::Prepared, Notify::Commit, Owed::Commit));
    steps.push(Step::EndWhereFinished(TransactionOutcome::Committed));
}

/// It rolls back.
pub fn abort(steps: &mut Steps)
    requires room { array_vec_len steps.old ≤ 4 }
    ensures items { steps.new.items ≡ steps.old.items ++ aborts }
{
    steps.push(Step::Record(Fact::Undo));
    steps.push(Step::Decide(TransactionOutcome::Aborted));
    steps.push(Step::Enter(Phase::Aborting));
    steps.push(Step::Ask(Who::Recovered, Notify::Rollback, Owed::Rollback));
    steps.push(Step::Tell(Who::OtherSuperior, Notify::Rollback));
    steps.push(Step::EndWhereFinished(TransactionOutcome::Aborted));
}

/// All enlistments are prepared.
pub fn all_ready(s: &Seen, steps: &mut Steps)
    requires room { array_vec_len steps.old ≤ 2 }
    ensures items { steps.new.items ≡ steps.old.items ++ all_readies s.now }
{
    steps.push(Step::Record(Fact::ReadyFiles));
    steps.push(Step::Record(Fact::ReadyKeys));
    if s.has_superior {
        steps.push(Step::Record(Fact::Held));
        steps.push(Step::Tell(Who::Superior, Notify::PrepareComplete));
        steps.push(Step::Enter(Phase::Held));
    } else if participants(s) == 0 {
        steps.push(Step::End(TransactionOutcome::Committed));
    } else {
        commit(steps);
    }
}

// All that take part are asked to prepare.
fn prepare_all(s: &Seen, steps: &mut Steps)
    requires room { array_vec_len steps.old ≤ 2 }
    ensures items { steps.new.items ≡ steps.old.items ++ prepares_all s.now }
{
    if s.enlistments == 0 {
        all_ready(s, steps);
    } else {
        steps.push(Step::Ask(Who::Parts, Notify::Prepare, Owed::Prepare));
        steps.push(Step::Enter(Phase::Preparing));
    }
}

// It has one participant, and no superior.
fn commit_one(s: &Seen, steps: &mut Steps)
    requires room { array_vec_len steps.old ≤ 2 }
    ensures items { steps.new.items ≡ steps.old.items ++ commits_one s.now }
{
    if s.has_files {
        steps.push(Step::Record(Fact::SingleFiles));
        steps.push(Step::Commit);
        steps.push(Step::End(TransactionOutcome::Committed));
    } else if s.has_keys {
        steps.push(Step::Record(Fact::SingleKeys));
        steps.push(Step::Commit);
        steps.push(Step::End(TransactionOutcome::Committed));
    } else if s.in_one_phase == 0 {
        prepare_all(s, steps);
    } else {
        steps.push(Step::Ask(Who::Parts, Notify::SinglePhaseCommit, Owed::Commit));
        steps.push(Step::Enter(Phase::SinglePhase));
    }
}

/// It is to be prepared.
pub fn prepare(s: &Seen, steps: &mut Steps)
    requires room { array_vec_len steps.old ≤ 2 }
    ensures items { steps.new.items ≡ steps.old.items ++ prepares s.now }
{
    if s.has_superior {
        prepare_all(s, steps);
    } else {
        match participants(s) {
            0 => steps.push(Step::End(TransactionOutcome::Committed)),
            1 => commit_one(s, steps),
            _ => prepare_all(s, steps),
        }
    }
}

/// All have pre-prepared.
pub fn proceed(s: &Seen, steps: &mut Steps)
    requires room { array_vec_len steps.old ≤ 2 }
    ensures items { steps.new.items ≡ steps.old.items ++ proceeds s.now }
{
    if s.has_superior {
        steps.push(Step::Tell(Who::Superior, Notify::PrePrepareComplete));
        steps.push(Step::Enter(Phase::PrePrepared));
    } else {
        prepare(s, steps);
    }
}

/// Those that ask for it are to pre-prepare.
pub fn pre_prepare(s: &Seen, steps: &mut Steps)
    requires room { array_vec_len steps.old ≤ 2 }
    ensures items { steps.new.items ≡ steps.old.items ++ pre_prepares s.now }
{
    if s.asking == 0 {
        proceed(s, steps);
    } else {
        steps.push(Step::Ask(Who::Asking, Notify::PrePrepare, Owed::PrePrepare));
        steps.push(Step::Enter(Phase::PrePreparing));
    }
}

/// A commit was asked for.
pub fn request(s: &Seen, steps: &mut Steps)
    requires room { array_vec_len steps.old ≤ 2 }
    ensures items { steps.new.items ≡ steps.old.items ++ requests s.now }
{
    if s.has_superior {
        steps.push(Step::Tell(Who::Superior, Notify::CommitRequest));
        steps.push(Step::Enter(Phase::Requested));
    } else {
        pre_prepare(s, steps);
    }
}

/// An enlistment has pre-prepared.
pub fn pre_prepare_complete(s: &Seen, steps: &mut Steps)
    requires room { array_vec_len steps.old ≤ 1 }
    ensures items { steps.new.items ≡ steps.old.items ++ pre_prepare_completes s.now }
{
    steps.push(Step::Change(Answered::PrePrepared));
    if is_last(s) {
        proceed(s, steps);
    }
}

/// An enlistment is prepared.
pub fn prepare_complete(s: &Seen, steps: &mut Steps)
    requires room { array_vec_len steps.old ≤ 0 }
    ensures items { steps.new.items ≡ steps.old.items ++ prepare_completes s.now }
{
    steps.push(Step::Change(Answered::Prepared));
    steps.push(Step::Record(Fact::Ready));
    if is_last(s) {
        all_ready(s, steps);
    }
}

// The last enlistment that owed an answer takes part no more.
fn proceed_without(s: &Seen, steps: &mut Steps)
    requires room { array_vec_len steps.old ≤ 2 }
    ensures items { steps.new.items ≡ steps.old.items ++ proceeds_without s.now.phase s.now }
{
    match s.phase {
        Phase::PrePreparing => proceed(s, steps),
        Phase::Preparing => all_ready(s, steps),
        Phase::SinglePhase => steps.push(Step::End(TransactionOutcome::Committed)),
        _ => {}
    }
}

/// An enlistment, which counted for this, takes part no more.
pub fn read_only(s: &Seen, share: Share, steps: &mut Steps)
    requires room { array_vec_len steps.old ≤ 1 }
    ensures items { steps.new.items ≡ steps.old.items ++ read_onlies s.now share }
{
    steps.push(Step::Change(Answered::ReadOnly));
    if share.owes && is_last(s) {
        proceed_without(&without(s, share), steps);
    }
}

/// One phase is not for the enlistment that was asked.
pub fn reject_one_phase(steps: &mut Steps)
    requires room { array_vec_len steps.old ≤ 4 }
    ensures items { steps.new.items ≡ steps.old.items ++ rejects_one_phase }
{
    steps.push(Step::Ask(Who::Caller, Notify::Prepare, Owed::Prepare));
    steps.push(Step::Enter(Phase::Preparing));
}

/// An enlistment has committed.
pub fn commit_complete(phase: Phase, steps: &mut Steps)
    requires room { array_vec_len steps.old ≤ 4 }
    ensures items { steps.new.items ≡ steps.old.items ++ commit_completes phase }
{
    steps.push(Step::Change(Answered::Finished));
    match phase {
        Phase::SinglePhase => steps.push(Step::End(TransactionOutcome::Committed)),
        _ => {
            steps.push(Step::Record(Fact::Done));
            steps.push(Step::EndWhereFinished(TransactionOutcome::Committed));
        }
    }
}

/// An enlistment has rolled back.
pub fn rollback_complete(steps: &mut Steps)
    requires room { array_vec_len steps.old ≤ 4 }
    ensures items { steps.new.items ≡ steps.old.items ++ rollback_completes }
{
    steps.push(Step::Change(Answered::Finished));
    steps.push(Step::EndWhereFinished(TransactionOutcome::Aborted));
}

/// An ordinary enlistment recovers.
pub fn recover(phase: Phase, steps: &mut Steps)
    requires room { array_vec_len steps.old ≤ 4 }
    ensures items { steps.new.items ≡ steps.old.items ++ recovers phase }
{
    steps.push(Step::Change(Answered::Recovered));
    match phase {
        Phase::InDoubt => steps.push(Step::Tell(Who::Caller, Notify::Indoubt)),
        Phase::Committing => {
            steps.push(Step::Ask(Who::Caller, Notify::Commit, Owed::Commit));
        }
        Phase::Aborting => {
            steps.push(Step::Ask(Who::Caller, Notify::Rollback, Owed::Rollback));
        }
        _ => {}
    }
}

/// A superior recovers.
pub fn recover_superior(steps: &mut Steps)
    requires room { array_vec_len steps.old ≤ 4 }
    ensures items { steps.new.items ≡ steps.old.items ++ recovers_superior }
{
    steps.push(Step::Change(Answered::Recovered));
    steps.push(Step::Tell(Who::Caller, Notify::RecoverQuery));
}
