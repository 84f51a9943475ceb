// How a transaction goes on by what comes to it.
ghost use Rattle.std.specs.Prelude.{◌≡◌, ◌+◌, ◌&&◌};
ghost use Rattle.ktm_world.specs.Rows.{is_last, participants, row, without};
ghost use Rattle.ktm_phase.specs.Replies.{if_allowed};

use crate::rows;
use arrayvec::ArrayVec;
use ktm_base::Refusal;
use ktm_world::{PhaseInput, Seen, Share, Step};

/// The steps of one call, in order.
pub type Steps = ArrayVec<Step, 12>;

/// The steps by which a transaction of which this counts goes on.
pub fn step(s: &Seen, input: PhaseInput) -> Steps
    ensures row { result.items ≡ row s.now input }
{
    let mut steps: Steps = ArrayVec::new();
    match input {
        PhaseInput::CommitTransaction => rows::request(s, &mut steps),
        PhaseInput::Rollback => rows::abort(&mut steps),
        PhaseInput::PrePrepareComplete => rows::pre_prepare_complete(s, &mut steps),
        PhaseInput::PrepareComplete => rows::prepare_complete(s, &mut steps),
        PhaseInput::ReadOnly(share) => rows::read_only(s, share, &mut steps),
        PhaseInput::SinglePhaseReject => rows::reject_one_phase(&mut steps),
        PhaseInput::CommitComplete => rows::commit_complete(s.phase, &mut steps),
        PhaseInput::RollbackComplete => rows::rollback_complete(&mut steps),
        PhaseInput::PrePrepare => rows::pre_prepare(s, &mut steps),
        PhaseInput::Prepare => rows::prepare(s, &mut steps),
        PhaseInput::Commit => rows::commit(&mut steps),
        PhaseInput::Recover => rows::recover(s.phase, &mut steps),
        PhaseInput::RecoverSuperior => rows::recover_superior(&mut steps),
    }
    steps
}

// How many participants there are: enlistments, the files and the keys.
pub(crate) fn participants(s: &Seen) -> u64
    ensures { result ≡ participants s.now }
{
    s.enlistments as u64 + s.has_files as u64 + s.has_keys as u64
}

// Does no other enlistment owe an answer, when one that does answers.
pub(crate) fn is_last(s: &Seen) -> bool
    ensures { result ≡ is_last s.now }
{
    s.owing == 1
}

// How it stands once an enlistment that counted for this takes part no more.
pub(crate) fn without(s: &Seen, share: Share) -> Seen
    ensures { result ≡ without share s.now }
{
    Seen {
        enlistments: s.enlistments.saturating_sub(1),
        asking: s.asking.saturating_sub(share.asks as u32),
        in_one_phase: s.in_one_phase.saturating_sub(share.allows_one_phase as u32),
        owing: s.owing.saturating_sub(share.owes as u32),
        ..*s
    }
}

// This comes where it is allowed.
pub(crate) fn if_allowed(is_allowed: bool, input: PhaseInput) -> Result<PhaseInput, Refusal>
    ensures { result ≡ if_allowed is_allowed input }
{
    if is_allowed {
        Ok(input)
    } else {
        Err(Refusal::TransactionRequestNotValid)
    }
}
