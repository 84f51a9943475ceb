// A node that is lent.
ghost use Rattle.std.specs.Prelude.{◌≡◌};
ghost use Rattle.std.specs.Option.{option_map};
ghost use Rattle.txf_tree.specs.Children.{node_seen};
ghost use Rattle.txf_tree.specs.TreeState.{bytes_now, plain};

use ktm_content::{Content, PlacedRef};
use txf_nodes::StoredNode;

/// A node: its content, if it is a file, and its name are lent.
#[derive(Drop)]
pub struct NodeRef<'a> {
    pub number: u64,
    /// The number of the directory that it is in.
    pub parent: u64,
    pub name: &'a [u8],
    /// The bytes of a file; a directory has none.
    pub content: Option<PlacedRef<'a>>,
}

// The bytes of a node, if it is a file.
fn bytes_of(node: &StoredNode<Content>) -> Option<PlacedRef<'_>>
    ensures { result ≡ option_map bytes_now node.now.content }
{
    match node.content() {
        Some(content) => Some(content.lend()),
        None => None,
    }
}

/// The node, lent.
pub(crate) fn node_ref(node: &StoredNode<Content>) -> NodeRef<'_>
    ensures { node_seen result ≡ plain node.now }
{
    NodeRef {
        number: node.number(),
        parent: node.parent(),
        name: node.name(),
        content: bytes_of(node),
    }
}
