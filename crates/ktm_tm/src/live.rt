// Which enlistments are live, in the transactions that have not ended.
ghost use Rattle.std.specs.Prelude.{◌≡◌, count_by};
ghost use Rattle.ktm_world.specs.Enlistments.{is_live_enlistment};
ghost use Rattle.ktm_world.specs.Phases.{one_if};
ghost use Rattle.ktm_enlist.specs.Enlistments.{AreEnlisted};
ghost use Rattle.ktm_tm.specs.LiveCounts.{is_live_of, is_live_of_either};

use crate::table::TransactionTable;
use ktm_base::Id;
use ktm_enlist::Enlistments;
use ktm_phase::Enlistment;

// Is the enlistment live in its transaction.
fn is_live_enlistment(transactions: &TransactionTable, e: &Enlistment) -> bool
    ensures { result ≡ is_live_enlistment transactions.now.items e.now }
{
    match transactions.find_live(e.transaction) {
        Some(t) => e.is_live(&t),
        None => false,
    }
}

/// How much the enlistment counts for: 1 if it is live in its transaction, and else 0.
pub fn live_one(transactions: &TransactionTable, e: &Enlistment) -> usize
    ensures { result ≡ one_if (is_live_enlistment transactions.now.items e.now) }
{
    is_live_enlistment(transactions, e) as usize
}

// How many enlistments of the transaction are live: none, if it has ended or is not there.
fn live_in(transactions: &TransactionTable, enlistments: &Enlistments, transaction: Id) -> usize
    ensures live { result ≡ count_by (is_live_of transactions.now.items transaction) enlistments.now.enlistments }
    ensures enlisted { AreEnlisted enlistments.now.enlistments }
{
    let live = enlistments.live(transaction) as usize;
    if live == 0 {
        return 0;
    }
    match transactions.find_live(transaction) {
        Some(_) => live,
        None => 0,
    }
}

/// How many enlistments of the two transactions are live. They may be the same one.
pub fn live_in_either(
    transactions: &TransactionTable,
    enlistments: &Enlistments,
    one: Id,
    other: Id,
) -> usize
    ensures live { result ≡ count_by (is_live_of_either transactions.now.items one other) enlistments.now.enlistments }
    ensures enlisted { AreEnlisted enlistments.now.enlistments }
{
    if enlistments.as_slice().is_empty() {
        return 0;
    }
    let live = live_in(transactions, enlistments, one);
    if other == one {
        return live;
    }
    live + live_in(transactions, enlistments, other)
}
