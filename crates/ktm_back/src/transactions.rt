// The transactions that are brought back.
ghost use Rattle.std.specs.Prelude.{◌≡◌};
ghost use Rattle.std.specs.List.{list_any};
ghost use Rattle.ktm_world.specs.Durable.{is_decided, is_held};
ghost use Rattle.ktm_world.specs.World.{is_brought_back, is_enlistment_part, transaction_back};

use ktm_world::{Part, Phase, Recorded, RecordedPart, Stage, Transaction, TransactionOutcome};

/// Does it wait for its superior.
pub(crate) fn is_held(stage: Stage) -> bool
    ensures { result ≡ is_held stage }
{
    match stage {
        Stage::Held => true,
        Stage::Ready | Stage::Decided => false,
    }
}

// Is it decided that it commits.
fn is_decided(stage: Stage) -> bool
    ensures { result ≡ is_decided stage }
{
    match stage {
        Stage::Decided => true,
        Stage::Ready | Stage::Held => false,
    }
}

// Is the part an enlistment's.
fn is_enlistment_part(part: &RecordedPart) -> bool
    ensures { result ≡ is_enlistment_part part.now }
{
    match &part.part {
        Part::Enlistment { .. } => true,
        Part::Changes(_) | Part::Settings(_) => false,
    }
}

// Is one of the parts an enlistment's.
fn has_enlistment(parts: &[RecordedPart]) -> bool
    ensures { result ≡ list_any is_enlistment_part parts.now }
{
    parts.iter().any(is_enlistment_part)
}

/// Is the transaction brought back: it waits for its superior, or it commits and has enlistments that have not finished.
pub fn is_brought_back(t: &Recorded) -> bool
    ensures { result ≡ is_brought_back t.now }
{
    is_held(t.stage) || (is_decided(t.stage) && has_enlistment(&t.parts))
}

/// The transaction as it is brought back: in doubt where it waits, and else it commits.
pub fn transaction_back(t: &Recorded) -> Transaction
    ensures { result ≡ transaction_back t.now }
{
    let (phase, outcome) = if is_held(t.stage) {
        (Phase::InDoubt, TransactionOutcome::Undetermined)
    } else {
        (Phase::Committing, TransactionOutcome::Committed)
    };
    Transaction {
        id: t.id,
        timeout: 0,
        created: 0,
        phase,
        outcome,
        is_recorded: true,
    }
}
