// Does all of a state lie on the pages that there are.
ghost use Rattle.std.specs.Prelude.{◌≡◌, ◌↔◌, All, IsTrue};
ghost use Rattle.ktm_paged.specs.Paged.{LieBelow, LiesBelow, PutLiesBelow, RecordedLiesBelow};
ghost use Rattle.ktm_world.specs.Durable.{changes_in};
ghost use Rattle.ktm_world.specs.Tree.{bytes_or_none};
ghost use Rattle.txf_tree.specs.Children.{node_seen};
ghost use Rattle.txf_tree.specs.TreeState.{tree_of};

use ktm_owners::lies_below;
use ktm_replayed::Replayed;
use ktm_waiting::changes_in;
use ktm_world::{Change, Recorded, RecordedPart};
use txf_tree::{NodeRef, Tree, bytes_in};

// Does a file lie on some of the first so many pages; a directory does.
fn file_lies_below(count: usize, node: NodeRef<'_>) -> bool
    ensures { IsTrue result ↔ LiesBelow count (bytes_or_none (node_seen node.entry).content) }
{
    match node.content {
        Some(content) => lies_below(count, content),
        None => true,
    }
}

// Do all files lie so.
fn files_lie_below(count: usize, tree: &Tree) -> bool
    ensures { IsTrue result ↔ All (λ node. LiesBelow count (bytes_or_none node.content)) (tree_of tree.now) }
{
    let mut nodes = tree.nodes();
    'nodes: while let Some(node) = nodes.next() {
        if !file_lies_below(count, node) {
            return false;
        }
    }
    true
}

// Does what a change puts lie so.
fn put_lies_below(count: usize, change: &Change) -> bool
    ensures { IsTrue result ↔ PutLiesBelow count change.now }
{
    match change {
        Change::Put { contents, .. } => lies_below(count, bytes_in(contents)),
        _ => true,
    }
}

// Does what a part puts lie so.
fn part_lies_below(count: usize, p: &RecordedPart) -> bool
    ensures { IsTrue result ↔ All (PutLiesBelow count) (changes_in p.now.part) }
{
    changes_in(&p.part)
        .iter()
        .all(|change| put_lies_below(count, change))
}

// Does what parts put lie so.
fn parts_lie_below(count: usize, parts: &[RecordedPart]) -> bool
    ensures { IsTrue result ↔ All (λ part. All (PutLiesBelow count) (changes_in part.part)) parts.now }
{
    parts.iter().all(|p| part_lies_below(count, p))
}

// Does what a transaction puts that is not over lie so.
fn recorded_lies_below(count: usize, transaction: &Recorded) -> bool
    ensures { IsTrue result ↔ RecordedLiesBelow count transaction.now }
{
    parts_lie_below(count, &transaction.parts)
}

/// Do the contents of the state lie on some of the first so many pages.
pub(crate) fn lie_below(count: usize, replayed: &Replayed) -> bool
    ensures { IsTrue result ↔ LieBelow count replayed.now.state }
{
    files_lie_below(count, replayed.tree())
        && replayed
            .transactions()
            .iter()
            .all(|transaction| recorded_lies_below(count, transaction))
}
