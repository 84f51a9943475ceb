// What is told of a change without the tree.
ghost use Rattle.std.specs.Prelude.{◌≡◌, ◌<◌, ◌^◌, true};
ghost use Rattle.ktm_world.specs.Changes.{bytes_in, changes_bytes, is_drop, is_make, is_whole, next_after, node_of};

use ktm_content::PlacedRef;
use ktm_world::{Change, Contents};

/// The number of the node that a change makes or changes.
pub fn node_of(change: &Change) -> u64
    ensures { result ≡ node_of change.now }
{
    match change {
        Change::Make { node, .. }
        | Change::Put { node, .. }
        | Change::Cut { node, .. }
        | Change::Move { node, .. }
        | Change::Drop { node } => *node,
    }
}

/// Does the change make a node.
pub fn is_make(change: &Change) -> bool
    ensures { result ≡ is_make change.now }
{
    match change {
        Change::Make { .. } => true,
        _ => false,
    }
}

/// Does the change drop a node.
pub fn is_drop(change: &Change) -> bool
    ensures { result ≡ is_drop change.now }
{
    match change {
        Change::Drop { .. } => true,
        _ => false,
    }
}

/// Does the change put or cut bytes of a file.
pub fn changes_bytes(change: &Change) -> bool
    ensures { result ≡ changes_bytes change.now }
{
    match change {
        Change::Put { .. } | Change::Cut { .. } => true,
        _ => false,
    }
}

/// The number of the next node, once a change has made one.
pub fn next_after(next: u64, change: &Change) -> u64
    requires { is_make change.now ≡ true → node_of change.now < 2 ^ 63 }
    ensures { result ≡ next_after next change.now }
{
    match change {
        Change::Make { node, .. } => next.max(*node + 1),
        _ => next,
    }
}

/// The bytes of contents that stand as they are, lent.
pub fn bytes_in(contents: &Contents) -> PlacedRef<'_>
    ensures { result ≡ bytes_in contents.now }
{
    match contents {
        Contents::Whole(placed) => placed.lend(),
        Contents::Paged { .. } => PlacedRef::none(),
    }
}

/// Do the contents stand as bytes, and not as pages.
pub fn is_whole(contents: &Contents) -> bool
    ensures { result ≡ is_whole contents.now }
{
    match contents {
        Contents::Whole(_) => true,
        Contents::Paged { .. } => false,
    }
}
