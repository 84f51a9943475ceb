// The phases of a transaction in which its enlistments may make their calls.
ghost use Rattle.std.specs.Prelude.{◌≡◌};
ghost use Rattle.ktm_world.specs.TransactionCalls.{before_pre_prepare, before_prepare, is_voting, lets_superior_roll_back, waits_for_superior};
ghost use Rattle.ktm_phase.specs.Replies.{is_in_doubt};

use ktm_world::Phase;

/// An ordinary enlistment may still vote.
pub fn is_voting(phase: Phase) -> bool
    ensures { result ≡ is_voting phase }
{
    match phase {
        Phase::Active
        | Phase::Requested
        | Phase::PrePreparing
        | Phase::PrePrepared
        | Phase::Preparing
        | Phase::SinglePhase => true,
        _ => false,
    }
}

/// A superior may roll back.
pub fn lets_superior_roll_back(phase: Phase) -> bool
    ensures { result ≡ lets_superior_roll_back phase }
{
    match phase {
        Phase::Active
        | Phase::Requested
        | Phase::PrePreparing
        | Phase::PrePrepared
        | Phase::Preparing
        | Phase::Held
        | Phase::InDoubt => true,
        _ => false,
    }
}

/// A superior may ask that its transaction pre-prepares.
pub fn before_pre_prepare(phase: Phase) -> bool
    ensures { result ≡ before_pre_prepare phase }
{
    match phase {
        Phase::Active | Phase::Requested => true,
        _ => false,
    }
}

/// A superior may ask that its transaction prepares.
pub fn before_prepare(phase: Phase) -> bool
    ensures { result ≡ before_prepare phase }
{
    match phase {
        Phase::Active | Phase::Requested | Phase::PrePrepared => true,
        _ => false,
    }
}

/// The transaction waits for its superior to decide.
pub fn waits_for_superior(phase: Phase) -> bool
    ensures { result ≡ waits_for_superior phase }
{
    match phase {
        Phase::Held | Phase::InDoubt => true,
        _ => false,
    }
}

/// It does so after a restart.
pub fn is_in_doubt(phase: Phase) -> bool
    ensures { result ≡ is_in_doubt phase }
{
    match phase {
        Phase::InDoubt => true,
        _ => false,
    }
}
