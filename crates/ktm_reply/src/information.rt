// Transactions behind `ok `: a GUID, and how the transaction stands.
ghost use Rattle.std.specs.Prelude.{◌≡◌};
ghost use Rattle.ktm_reply.specs.Reading.{behind_guid_at, information_at, outcome_named, state_named};
ghost use Rattle.ktm_reply.specs.States.{outcome_name, state_name};

use ktm_codec::{split_word, strip_word};
use ktm_world::{Reply, TransactionOutcome, TransactionState};
use uuid::Uuid;

const STATES: [TransactionState; 3] = [
    TransactionState::Normal,
    TransactionState::Indoubt,
    TransactionState::CommittedNotify,
];

const OUTCOMES: [TransactionOutcome; 3] = [
    TransactionOutcome::Undetermined,
    TransactionOutcome::Committed,
    TransactionOutcome::Aborted,
];

pub fn state_name(state: TransactionState) -> &'static [u8]
    ensures { result.now ≡ state_name state }
{
    match state {
        TransactionState::Normal => b"Normal",
        TransactionState::Indoubt => b"Indoubt",
        TransactionState::CommittedNotify => b"CommittedNotify",
    }
}

pub fn outcome_name(outcome: TransactionOutcome) -> &'static [u8]
    ensures { result.now ≡ outcome_name outcome }
{
    match outcome {
        TransactionOutcome::Undetermined => b"Undetermined",
        TransactionOutcome::Committed => b"Committed",
        TransactionOutcome::Aborted => b"Aborted",
    }
}

// The state with this name.
#[tactic(auto, unfolding(crate::specs::Reading::state_named))]
fn state_named(text: &[u8]) -> Option<TransactionState>
    ensures { result ≡ state_named text.now }
{
    STATES
        .iter()
        .copied()
        .find(|state| state_name(*state) == text)
}

// The outcome with this name.
#[tactic(auto, unfolding(crate::specs::Reading::outcome_named))]
fn outcome_named(text: &[u8]) -> Option<TransactionOutcome>
    ensures { result ≡ outcome_named text.now }
{
    OUTCOMES
        .iter()
        .copied()
        .find(|outcome| outcome_name(*outcome) == text)
}

#[tactic(auto, unfolding(crate::specs::Reading::information_at))]
fn information(transaction: Uuid, text: &[u8]) -> Option<Reply>
    ensures { result ≡ information_at transaction text.now }
{
    let (state, rest) = split_word(strip_word(text, b" ")?);
    let state = state_named(state)?;
    let outcome = outcome_named(strip_word(rest, b" ")?)?;
    Some(Reply::Information {
        transaction,
        state,
        outcome,
    })
}

// What stands behind a GUID: how its transaction stands, or nothing.
#[tactic(auto, unfolding(crate::specs::Reading::behind_guid_at))]
pub fn behind_guid(guid: Uuid, text: &[u8]) -> Option<Reply>
    ensures { result ≡ behind_guid_at guid text.now }
{
    if text.is_empty() {
        return Some(Reply::Guid(guid));
    }
    information(guid, text)
}
