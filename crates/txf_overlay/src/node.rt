// What became of a node.
ghost use Rattle.std.specs.Prelude.{◌≡◌, ◌+◌, ◌<◌, ◌≤◌, false};
ghost use Rattle.std.specs.Option.{option_copied};
ghost use Rattle.ktm_world.specs.Holds.{place};
ghost use Rattle.txf_overlay.specs.Maps.{under};
ghost use Rattle.txf_tree.specs.Places.{number_bytes};
ghost use Rattle.txf_overlay.specs.Nodes.{given, given_name, given_parent, one_if, was_counted, was_made, IsShort};

use crate::maps::get;
use ktm_links::Chains;
use ktm_world::{Change, NodeKind};
use txf_tree::{ChildName, NumberName, child_name, number_bytes};

/// What became of a node that the transaction made, moved or dropped.
#[derive(Clone, Copy)]
pub(crate) struct NodeSeen {
    /// The place of the last change of it.
    pub(crate) last: usize,
    /// The kind as which it was made, if it was.
    pub(crate) made: Option<NodeKind>,
    /// Was it made, and is it not dropped.
    pub(crate) is_counted: bool,
}

pub(crate) type Nodes = Chains<NumberName, NodeSeen>;

// What became of the node, if anything did.
pub(crate) fn seen(nodes: &Nodes, node: u64) -> Option<NodeSeen>
    ensures { result ≡ under nodes.now.entries (number_bytes node) }
{
    get(nodes, &number_bytes(node)).copied()
}

// What became of a node that is moved by the change at this place.
pub(crate) fn moved(before: Option<NodeSeen>, last: usize) -> NodeSeen
    ensures last { result.last ≡ last }
    ensures made { result.made ≡ was_made before }
    ensures counted { result.is_counted ≡ was_counted before }
{
    match before {
        Some(seen) => NodeSeen { last, ..seen },
        None => NodeSeen {
            last,
            made: None,
            is_counted: false,
        },
    }
}

// What became of a node that is dropped by the change at this place.
pub(crate) fn dropped(before: Option<NodeSeen>, last: usize) -> NodeSeen
    ensures last { result.last ≡ last }
    ensures made { result.made ≡ was_made before }
    ensures counted { result.is_counted ≡ false }
{
    NodeSeen {
        is_counted: false,
        ..moved(before, last)
    }
}

// The count of nodes that are made, with one more, of so many at most.
pub(crate) fn one_more(made: usize, most: usize) -> usize
    requires { made < most }
    ensures { result ≡ made + 1 }
{
    made + 1
}

// The count of nodes that are made, without this one.
pub(crate) fn less(made: usize, before: Option<NodeSeen>) -> usize
    requires { one_if (was_counted before) ≤ made }
    ensures { result + one_if (was_counted before) ≡ made }
{
    match before {
        Some(
            NodeSeen {
                is_counted: true,
                ..
            },
        ) => made - 1,
        _ => made,
    }
}

// The name of the place to which a change brings its node.
pub(crate) fn given(change: &Change) -> Option<ChildName>
    requires { IsShort change.now }
    ensures { result ≡ given change.now }
{
    match change {
        Change::Make { parent, name, .. } => Some(child_name(*parent, name.as_slice())),
        Change::Move { parent, name, .. } => Some(child_name(*parent, name.as_slice())),
        _ => None,
    }
}

// The directory to which a change brings its node.
pub(crate) fn given_parent(change: &Change) -> Option<u64>
    ensures { result ≡ given_parent change.now }
{
    match change {
        Change::Make { parent, .. } => Some(*parent),
        Change::Move { parent, .. } => Some(*parent),
        _ => None,
    }
}

// The name that a change gives its node.
pub(crate) fn given_name(change: &Change) -> Option<&[u8]>
    ensures { option_copied result ≡ given_name change.now }
{
    match change {
        Change::Make { name, .. } => Some(name.as_slice()),
        Change::Move { name, .. } => Some(name.as_slice()),
        _ => None,
    }
}
