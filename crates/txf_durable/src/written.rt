// The files that changes write.
ghost use Rattle.std.specs.Prelude.{◌≡◌, ◌+◌, ◌<◌, ◌≤◌, length};
ghost use Rattle.ktm_world.specs.Changes.{is_make_of_file};
ghost use Rattle.ktm_world.specs.Committed.{written_after, written_files};

use crate::numbers::FileNumbers;
use ktm_world::{Change, NodeKind};
use txf_tree::{changes_bytes, is_drop, node_of};

fn is_make_of_file(change: &Change) -> bool
    ensures { result ≡ is_make_of_file change.now }
{
    match change {
        Change::Make {
            kind: NodeKind::File,
            ..
        } => true,
        _ => false,
    }
}

// What becomes of the files with a change.
fn add_change(files: &mut FileNumbers, change: &Change)
    requires { length files.old.numbers < files.old.room }
    ensures numbers { files.new.numbers ≡ written_after files.old.numbers change.now }
    ensures few { length files.new.numbers ≤ length files.old.numbers + 1 }
    ensures room { files.new.room ≡ files.old.room }
{
    if changes_bytes(change) || is_make_of_file(change) {
        files.put(node_of(change));
        return;
    }
    if is_drop(change) {
        files.remove(node_of(change));
    }
}

/// Makes the numbers those of the files that the changes write or make, and leave. It takes no memory.
pub(crate) fn gather_written(files: &mut FileNumbers, changes: &[Change])
    requires { length changes.now ≤ files.old.room }
    ensures numbers { files.new.numbers ≡ written_files changes.now }
    ensures room { files.new.room ≡ files.old.room }
{
    files.clear();
    for change in changes {
        add_change(files, change);
    }
}
