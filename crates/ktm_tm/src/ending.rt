// What is kept of a transaction that has ended.
ghost use Rattle.std.specs.Prelude.{◌≡◌};
ghost use Rattle.ktm_world.specs.Transactions.{is_live};
ghost use Rattle.ktm_tm.specs.Table.{ended_with};

use ktm_base::Id;
use ktm_world::{Phase, Transaction, TransactionOutcome};

/// How a transaction has ended.
#[derive(Clone, Copy)]
pub(crate) struct Ending {
    pub outcome: TransactionOutcome,
    /// Has the log a Ready or a Held of it.
    pub is_recorded: bool,
}

/// Is the transaction live.
pub fn is_live(t: &Transaction) -> bool
    ensures { result ≡ is_live t.now }
{
    match t.phase {
        Phase::Ended => false,
        _ => true,
    }
}

/// How the transaction has ended, if it has.
pub fn ending_of(t: &Transaction) -> Ending
    ensures { result ≡ record { outcome = t.now.outcome; is_recorded = t.now.is_recorded } }
{
    Ending {
        outcome: t.outcome,
        is_recorded: t.is_recorded,
    }
}

/// The transaction that has ended so.
pub fn ended_with(id: Id, ending: Ending) -> Transaction
    ensures { result ≡ ended_with id ending }
{
    Transaction {
        id,
        timeout: 0,
        created: 0,
        phase: Phase::Ended,
        outcome: ending.outcome,
        is_recorded: ending.is_recorded,
    }
}
