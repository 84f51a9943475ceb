// Tests of a transaction that is read, beside those before it.
ghost use Rattle.std.specs.Prelude.{◌≡◌, ◌&&◌, ◌++◌, ◌∷◌, [], None, Ok, true, false, IfOk};
ghost use Rattle.std.specs.List.{list_all, list_any};
ghost use Rattle.ktm_saved.specs.Tests.{AreGoodBesideAll, AreGoodSoFar, BeginNone, IsGoodBehind, against_of, is_good_alone, is_known};
ghost use Rattle.ktm_waiting.specs.Waiting.{AreHeld};
ghost use Rattle.ktm_world.specs.Changes.{changes_apply, has_changes};
ghost use Rattle.ktm_world.specs.Durable.{are_recorded_changes, enlistments_in, enlistments_of, is_before, superior_ids};
ghost use Rattle.txf_durable.specs.Waiting.{is_met};
ghost use Rattle.txf_tree.specs.TreeState.{tree_of};

use crate::alone::is_good_alone;
use crate::head::Head;
use ktm_base::{Id, MOST_LIVE, NoMemory};
use ktm_waiting::{Transactions, changes_of, enlistments_of, is_before, others_set, settings_of};
use ktm_world::{Change, Part, Recorded, RecordedPart, Superior};
use std::alloc::Global;
use txf_durable::{DurableFiles, FileNumbers, Waiting};

// Does each of the transactions come before the Id.
fn are_before(transactions: &[Recorded], id: Id) -> bool
    ensures { result ≡ list_all (λ t. is_before t.id id) transactions.now }
{
    transactions.iter().all(|t| is_before(t.id, id))
}

fn is_superior_known(transactions: &Transactions, superior: &Option<Superior>) -> bool
    ensures { result ≡ list_any (is_known transactions.now.transactions) (superior_ids superior.now) }
{
    match superior {
        Some(s) => transactions.has_enlistment(s.enlistment),
        None => false,
    }
}

fn is_part_known(transactions: &Transactions, part: &Part) -> bool
    ensures { result ≡ list_any (is_known transactions.now.transactions) (enlistments_in part.now) }
{
    match part {
        Part::Enlistment { enlistment, .. } => transactions.has_enlistment(*enlistment),
        Part::Changes(_) | Part::Settings(_) => false,
    }
}

fn are_parts_known(transactions: &Transactions, parts: &[RecordedPart]) -> bool
    ensures { result ≡ list_any (λ p. list_any (is_known transactions.now.transactions) (enlistments_in p.part)) parts.now }
{
    parts.iter().any(|p| is_part_known(transactions, &p.part))
}

// Has one of the transactions an enlistment of this one.
fn has_known_enlistment(transactions: &Transactions, transaction: &Recorded) -> bool
    ensures { result ≡ list_any (is_known transactions.now.transactions) (enlistments_of transaction.now) }
{
    is_superior_known(transactions, &transaction.superior)
        || are_parts_known(transactions, &transaction.parts)
}

// Do the changes, which apply, meet what a transaction holds.
fn meets(files: &DurableFiles, waiting: &Waiting, changes: &[Change]) -> Result<bool, NoMemory>
    requires recorded { has_changes changes.now ≡ true → are_recorded_changes changes.now ≡ true }
    requires apply { changes_apply (tree_of files.now.tree) changes.now ≡ true }
    ensures { IfOk result (λ met. met ≡ (has_changes changes.now && is_met waiting.now None (tree_of files.now.tree) changes.now)) }
{
    if changes.is_empty() {
        return Ok(false);
    }
    waiting.meets(files, None, changes)
}

// Is a transaction that is a good one by itself good beside each of the others.
fn is_good_beside(
    head: &Head<'_>,
    transactions: &Transactions,
    waiting: &Waiting,
    transaction: &Recorded,
) -> Result<bool, NoMemory>
    requires good { AreGoodSoFar (against_of head.now) transactions.now.transactions }
    requires held { AreHeld waiting.now (tree_of head.now.files.now.tree) transactions.now.transactions }
    requires alone { is_good_alone (against_of head.now) transaction.now ≡ true }
    ensures good { result ≡ Ok true → AreGoodBesideAll (tree_of head.now.files.now.tree) transactions.now.transactions transaction.now }
    ensures bad { result ≡ Ok false → BeginNone (against_of head.now) (transactions.now.transactions ++ transaction.now ∷ []) }
{
    if has_known_enlistment(transactions, transaction) {
        return Ok(false);
    }
    if others_set(
        transactions.as_slice(),
        None,
        settings_of(&transaction.parts),
    ) {
        return Ok(false);
    }
    Ok(!meets(head.files, waiting, changes_of(&transaction.parts))?)
}

/// Is the transaction a good one by itself, and good behind the others.
pub(crate) fn is_good_behind(
    alloc: Global,
    head: &Head<'_>,
    transactions: &Transactions,
    waiting: &Waiting,
    written: &mut FileNumbers,
    transaction: &Recorded,
) -> Result<bool, NoMemory>
    requires good { AreGoodSoFar (against_of head.now) transactions.now.transactions }
    requires held { AreHeld waiting.now (tree_of head.now.files.now.tree) transactions.now.transactions }
    ensures good { result ≡ Ok true → IsGoodBehind (against_of head.now) transactions.now.transactions transaction.now }
    ensures bad { result ≡ Ok false → BeginNone (against_of head.now) (transactions.now.transactions ++ transaction.now ∷ []) }
{
    if !are_before(transactions.as_slice(), transaction.id) {
        return Ok(false);
    }
    if enlistments_of(transaction) > MOST_LIVE as u128 {
        return Ok(false);
    }
    if !is_good_alone(alloc, head, written, transaction)? {
        return Ok(false);
    }
    is_good_beside(head, transactions, waiting, transaction)
}
