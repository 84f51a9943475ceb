// Transactions that are read, one behind another.
ghost use Rattle.std.specs.Prelude.{◌≡◌, ◌++◌, ◌∷◌, [], Ok, true, false};
ghost use Rattle.ktm_saved.specs.Tests.{AreGoodSoFar, BeginNone, IsAdded, against_of};
ghost use Rattle.ktm_waiting.specs.Waiting.{AreHeld};
ghost use Rattle.txf_tree.specs.TreeState.{tree_of};

use crate::beside::is_good_behind;
use crate::head::Head;
use ktm_base::NoMemory;
use ktm_waiting::{Transactions, changes_of, hold_changes};
use ktm_world::Recorded;
use std::alloc::Global;
use txf_durable::{FileNumbers, Waiting};

/// Puts the transaction behind the others, which are good ones, where it is good beside them. It answers false where no good state
/// of an image has transactions that begin with these. Out of memory they are of no use, nor is what they hold.
pub(crate) fn add(
    alloc: Global,
    head: &Head<'_>,
    transactions: &mut Transactions,
    waiting: &mut Waiting,
    written: &mut FileNumbers,
    transaction: Recorded,
) -> Result<bool, NoMemory>
    requires good { AreGoodSoFar (against_of head.now) transactions.old.transactions }
    requires held { AreHeld waiting.old (tree_of head.now.files.now.tree) transactions.old.transactions }
    ensures added { result ≡ Ok true → IsAdded (against_of head.now) waiting.new transactions.old.transactions transaction transactions.new.transactions }
    ensures refused { result ≡ Ok false → BeginNone (against_of head.now) (transactions.old.transactions ++ transaction ∷ []) }
{
    if !is_good_behind(alloc, head, transactions, waiting, written, &transaction)? {
        return Ok(false);
    }
    hold_changes(
        waiting,
        head.files,
        transaction.id,
        changes_of(&transaction.parts),
    )?;
    transactions.add(head.files, transaction)
}
