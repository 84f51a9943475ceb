// What the changes of transactions that wait hold of the files.
ghost use Rattle.std.specs.Prelude.{◌≡◌, ◌&&◌, [], true, OnErr, OnOk, if◌then◌else◌};
ghost use Rattle.std.specs.List.{list_any};
ghost use Rattle.ktm_base.specs.declared.id.Id.{Id as Number};
ghost use Rattle.ktm_world.specs.Changes.{changes_apply, has_changes};
ghost use Rattle.ktm_world.specs.Durable.{are_recorded_changes, is_ready};
ghost use Rattle.ktm_world.specs.Holds.{holds_by};
ghost use Rattle.ktm_world.specs.Transactions.{same_id};
ghost use Rattle.txf_reserve.specs.ReserveState.{IsSameHold, holds_in};
ghost use Rattle.txf_tree.specs.TreeState.{tree_of};

use crate::parts::is_ready;
use ktm_base::{Id, NoMemory};
use ktm_world::{Change, Recorded};
use txf_durable::{DurableFiles, Waiting};

// A transaction that is ready, and neither held nor decided, holds nothing from now on.
fn release_if_ready(waiting: &mut Waiting, transaction: &Recorded)
    ensures { (id : Number) → IsSameHold (holds_in waiting.new id) (if same_id transaction.now.id id && is_ready transaction.now.stage then holds_by [] [] [] else holds_in waiting.old id) }
{
    if is_ready(transaction.stage) {
        waiting.release(transaction.id);
    }
}

/// Those of the transactions that are ready hold nothing from now on.
pub fn release_ready(waiting: &mut Waiting, transactions: &[Recorded])
    ensures { (id : Number) → IsSameHold (holds_in waiting.new id) (if list_any (λ t. same_id t.id id && is_ready t.stage) transactions.now then holds_by [] [] [] else holds_in waiting.old id) }
{
    for t in transactions {
        release_if_ready(waiting, t);
    }
}

/// A transaction that had these changes holds nothing from now on.
pub fn release_changes(waiting: &mut Waiting, transaction: Id, changes: &[Change])
    requires { changes.now ≡ [] → IsSameHold (holds_in waiting.old transaction) (holds_by [] [] []) }
    ensures { (id : Number) → IsSameHold (holds_in waiting.new id) (if same_id id transaction then holds_by [] [] [] else holds_in waiting.old id) }
{
    if !changes.is_empty() {
        waiting.release(transaction);
    }
}

/// A transaction, which holds nothing, holds what its changes hold, or still nothing, where memory is wanted.
pub fn hold_changes(
    waiting: &mut Waiting,
    files: &DurableFiles,
    transaction: Id,
    changes: &[Change],
) -> Result<(), NoMemory>
    requires recorded { has_changes changes.now ≡ true → are_recorded_changes changes.now ≡ true }
    requires apply { changes_apply (tree_of files.now.tree) changes.now ≡ true }
    requires none { has_changes changes.now ≡ true → IsSameHold (holds_in waiting.old transaction) (holds_by [] [] []) }
    ensures ok { OnOk result ((id : Number) → IsSameHold (holds_in waiting.new id) (if has_changes changes.now && same_id id transaction then holds_by (tree_of files.now.tree) changes.now [] else holds_in waiting.old id)) }
    ensures err { OnErr result ((id : Number) → IsSameHold (holds_in waiting.new id) (holds_in waiting.old id)) }
{
    if changes.is_empty() {
        return Ok(());
    }
    if let Err(NoMemory) = waiting.hold(files, transaction, changes) {
        waiting.release(transaction);
        return Err(NoMemory);
    }
    Ok(())
}
