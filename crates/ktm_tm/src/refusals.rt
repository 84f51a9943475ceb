// What a transaction's phase and outcome come to, and why a call on it is refused.
ghost use Rattle.std.specs.Prelude.{◌≡◌, ◌∷◌, ◌++◌, [], Some, not};
ghost use Rattle.ktm_world.specs.Labels.{outcome_tests, transaction_tests};
ghost use Rattle.ktm_world.specs.Outcome.{first_refusal};
ghost use Rattle.ktm_world.specs.TransactionCalls.{may_roll_back, rollback_transaction_tests, state_in};
ghost use Rattle.ktm_world.specs.Transactions.{is_active};

use ktm_base::Refusal;
use ktm_world::{Phase, Transaction, TransactionOutcome, TransactionState};

// Why a call on the transaction is refused: for its outcome, where that is known, and else for this, where its phase is wrong.
fn refusal(t: &Transaction, is_right: bool, other: Refusal) -> Option<Refusal>
    ensures { result ≡ first_refusal (outcome_tests (Some t.now) ++ (not is_right, other) ∷ []) }
{
    match t.outcome {
        TransactionOutcome::Committed => Some(Refusal::TransactionAlreadyCommitted),
        TransactionOutcome::Aborted => Some(Refusal::TransactionAlreadyAborted),
        TransactionOutcome::Undetermined if is_right => None,
        TransactionOutcome::Undetermined => Some(other),
    }
}

/// Why a call that wants an active transaction is refused, if it is.
pub fn active_refusal(t: &Transaction) -> Option<Refusal>
    ensures { result ≡ first_refusal (transaction_tests (Some t.now)) }
{
    refusal(t, is_active(t), Refusal::TransactionNotActive)
}

/// Why RollbackTransaction is refused, if it is.
pub fn rollback_refusal(t: &Transaction) -> Option<Refusal>
    ensures { result ≡ first_refusal (rollback_transaction_tests (Some t.now)) }
{
    refusal(t, may_roll_back(t), Refusal::TransactionRequestNotValid)
}

/// Has nobody asked for the transaction's commit, and has it not ended.
pub fn is_active(t: &Transaction) -> bool
    ensures { result ≡ is_active t.now }
{
    match t.phase {
        Phase::Active => true,
        _ => false,
    }
}

/// Is the transaction in a phase in which it may be rolled back, and in which its timeout does so.
pub fn may_roll_back(t: &Transaction) -> bool
    ensures { result ≡ may_roll_back t.now }
{
    match t.phase {
        Phase::Active
        | Phase::Requested
        | Phase::PrePreparing
        | Phase::PrePrepared
        | Phase::Preparing => true,
        _ => false,
    }
}

/// The state that is told of the transaction.
pub fn state_of(t: &Transaction) -> TransactionState
    ensures { result ≡ state_in t.now.phase }
{
    match t.phase {
        Phase::InDoubt => TransactionState::Indoubt,
        Phase::Committing => TransactionState::CommittedNotify,
        _ => TransactionState::Normal,
    }
}
