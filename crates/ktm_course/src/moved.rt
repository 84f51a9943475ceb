// What steps make of the files and the keys.
ghost use Rattle.std.specs.Prelude.{◌≡◌};
ghost use Rattle.std.specs.List.{list_any};
ghost use Rattle.ktm_course.specs.Moved.{is_commit, is_of_changes, records_changes, records_files};
ghost use Rattle.ktm_world.specs.Transactions.{is_undecided};

use ktm_world::{Fact, Step, Transaction, TransactionOutcome};

// Is this the step by which the files and the keys commit.
fn is_commit(step: &Step) -> bool
    ensures { result ≡ is_commit step.now }
{
    match step {
        Step::Commit => true,
        _ => false,
    }
}

/// Do the files and the keys commit by these steps, where they take part.
pub fn commits(steps: &[Step]) -> bool
    ensures { result ≡ list_any is_commit steps.now }
{
    steps.iter().any(is_commit)
}

// Are the changes of the files recorded by this fact.
fn is_of_changes(fact: Fact) -> bool
    ensures { result ≡ is_of_changes fact }
{
    match fact {
        Fact::ReadyFiles | Fact::SingleFiles => true,
        _ => false,
    }
}

// Are they by this step.
fn records_changes(step: &Step) -> bool
    ensures { result ≡ records_changes step.now }
{
    match step {
        Step::Record(fact) => is_of_changes(*fact),
        _ => false,
    }
}

/// Are the changes of the files recorded by one of these steps, where they take part.
pub fn records_files(steps: &[Step]) -> bool
    ensures { result ≡ records_files steps.now }
{
    steps.iter().any(records_changes)
}

/// Is the outcome of the transaction not known yet.
pub fn is_undecided(t: &Transaction) -> bool
    ensures { result ≡ is_undecided t.now }
{
    match t.outcome {
        TransactionOutcome::Undetermined => true,
        TransactionOutcome::Committed | TransactionOutcome::Aborted => false,
    }
}
