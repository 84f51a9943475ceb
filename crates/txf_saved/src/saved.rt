// The committed files of a snapshot.
ghost use Rattle.std.specs.Prelude.{IfOk};
ghost use Rattle.std.specs.Option.{option_map};
ghost use Rattle.txf_saved.specs.Saved.{ReadsFiles};

use crate::listed::nodes_at;
use crate::making::make_all;
use ktm_base::NoMemory;
use std::alloc::Global;
use txf_durable::DurableFiles;

/// The committed files that stand at a place of a snapshot, and the place behind them. The numbers of their pages are
/// copied, and the next node comes right behind them. None are there where no nodes are spelled, or where those that are spelled are no tree: a directory is
/// missing or is a file, a way up does not come to the root, two names in a directory are the same without case, or a name or a
/// number is none that a node can have.
pub fn read_files(
    alloc: Global,
    bytes: &[u8],
    at: usize,
) -> Result<Option<(DurableFiles, usize)>, NoMemory>
    ensures { IfOk result (λ read. ReadsFiles bytes.now at read) }
{
    let Some((nodes, end)) = nodes_at(alloc, bytes, at)? else {
        return Ok(None);
    };
    match make_all(alloc, &nodes)? {
        Some(files) => Ok(Some((files, end))),
        None => Ok(None),
    }
}
