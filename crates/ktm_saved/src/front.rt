// What stands before the transactions of a state.
ghost use Rattle.std.specs.Prelude.{◌≡◌, ◌&&◌, ◌-◌, ◌^◌, IfOk, IfSome, nat_lt, option_map};
ghost use Rattle.ktm_saved.specs.Reading.{IsGoodTree, ReadsFront, ReadsGood};
ghost use Rattle.ktm_snapshot.specs.StateGrammar.{AreNodesOf};
ghost use Rattle.txf_tree.specs.TreeState.{tree_of};

use crate::keys::read_keys;
use crate::managers::read_managers;
use ktm_base::{Bytes, NoMemory};
use ktm_keyed::KeyedList;
use ktm_snapshot::{StateHead, head_at};
use ktm_waiting::Managers;
use std::alloc::Global;
use txf_durable::DurableFiles;
use txf_saved::{law_of_next, read_files};

/// The greatest number that the next node may have.
const MOST_NEXT_NODE: u64 = 1 << 63;

/// What stands before the transactions of a state, in memory.
#[derive(Drop)]
pub(crate) struct Front {
    pub(crate) events: u64,
    pub(crate) boots: u32,
    pub(crate) files: DurableFiles,
    pub(crate) keys: KeyedList<Bytes>,
    pub(crate) managers: Managers,
}

// Has neither the count of events nor that of boots come to its end.
fn has_counts_left(head: &StateHead) -> bool
    ensures { result ≡ (nat_lt head.now.events (2 ^ 63) && nat_lt head.now.boots (2 ^ 32 - 1)) }
{
    head.events < 1 << 63 && head.boots < u32::MAX
}

// The committed files at a place, behind which the next node comes with this number, and the place behind them.
fn files_at(
    alloc: Global,
    bytes: &[u8],
    at: usize,
    next: u64,
) -> Result<Option<(DurableFiles, usize)>, NoMemory>
    ensures good { IfOk result (λ read. ReadsGood AreNodesOf (IsGoodTree next) bytes.now at (option_map (λ read. (tree_of read.0.tree, read.1)) read)) }
    ensures next { IfOk result (λ read. IfSome read (λ read. read.0.next_node ≡ next)) }
{
    law_of_next();
    let Some((mut files, end)) = read_files(alloc, bytes, at)? else {
        return Ok(None);
    };
    if next < files.next_node() || MOST_NEXT_NODE < next {
        return Ok(None);
    }
    files.raise_next(next);
    Ok(Some((files, end)))
}

/// What stands before the transactions of a state that stands in the bytes, and the place behind it. There is none where the
/// bytes spell no such thing, or one that no good state begins with.
pub(crate) fn read_front(alloc: Global, bytes: &[u8]) -> Result<Option<(Front, usize)>, NoMemory>
    ensures { IfOk result (λ read. ReadsFront bytes.now read) }
{
    let Some((head, start)) = head_at(bytes, 0) else {
        return Ok(None);
    };
    if !has_counts_left(&head) {
        return Ok(None);
    }
    let Some((files, behind_files)) = files_at(alloc, bytes, start, head.next_node)? else {
        return Ok(None);
    };
    let Some((keys, behind_keys)) = read_keys(alloc, bytes, behind_files)? else {
        return Ok(None);
    };
    let Some((managers, end)) = read_managers(alloc, bytes, behind_keys, head.boots)? else {
        return Ok(None);
    };
    let front = Front {
        events: head.events,
        boots: head.boots,
        files,
        keys,
        managers,
    };
    Ok(Some((front, end)))
}
