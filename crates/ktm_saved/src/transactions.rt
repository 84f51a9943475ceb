// The transactions of a snapshot's state.
ghost use Rattle.std.specs.Prelude.{◌≡◌, [], IfOk};
ghost use Rattle.ktm_saved.specs.Reading.{ReadsInto};
ghost use Rattle.ktm_saved.specs.Tests.{against_of};
ghost use Rattle.ktm_waiting.specs.Waiting.{AreHeld};
ghost use Rattle.txf_tree.specs.TreeState.{tree_of};

use crate::add::add;
use crate::head::Head;
use ktm_base::{MOST_LIVE, NoMemory};
use ktm_codec::u32_at;
use ktm_snapshot::transaction_at;
use ktm_waiting::Transactions;
use std::alloc::Global;
use txf_durable::{FileNumbers, Waiting};

/// Reads the transactions at a place into an empty list, with what those that wait hold of the files, and tells the place behind
/// them. There is none where none are spelled, where they are too many, or where one of them is not good beside those before it.
pub(crate) fn read_into(
    alloc: Global,
    bytes: &[u8],
    at: usize,
    head: &Head<'_>,
    transactions: &mut Transactions,
    waiting: &mut Waiting,
) -> Result<Option<usize>, NoMemory>
    requires none { transactions.old.transactions ≡ [] }
    requires held { AreHeld waiting.old (tree_of head.now.files.now.tree) [] }
    ensures { IfOk result (λ end. ReadsInto (against_of head.now) bytes.now at transactions.new waiting.new end) }
{
    let Some((count, start)) = u32_at(bytes, at) else {
        return Ok(None);
    };
    let mut written = FileNumbers::new(alloc);
    let mut end = start;
    'transactions: for _ in 0..count {
        if transactions.as_slice().len() == MOST_LIVE {
            return Ok(None);
        }
        let Some((transaction, next)) = transaction_at(alloc, bytes, end)? else {
            return Ok(None);
        };
        if !add(
            alloc,
            head,
            transactions,
            waiting,
            &mut written,
            transaction,
        )? {
            return Ok(None);
        }
        end = next;
    }
    Ok(Some(end))
}
