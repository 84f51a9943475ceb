// What a transaction sees of names over the committed tree.
ghost use Rattle.std.specs.Prelude.{◌≡◌, ◌≤◌, ℕ, true, length, is_some, Some};
ghost use Rattle.std.specs.List.{list_all};
ghost use Rattle.std.specs.Option.{option_map};
ghost use Rattle.ktm_world.specs.declared.recorded.Node.{Node};
ghost use Rattle.ktm_world.specs.Changes.{new_content};
ghost use Rattle.ktm_world.specs.Holds.{place};
ghost use Rattle.ktm_world.specs.Tree.{child_of, is_at_or_below, is_there, node_at, parent_of};
ghost use Rattle.txf_tree.specs.TreeState.{tree_of};
ghost use Rattle.txf_overlay.specs.OverlayState.{is_of_names, seen};
ghost use Rattle.txf_overlay.specs.Names.{place_bytes};
ghost use Rattle.txf_overlay.specs.Nodes.{made_kind};
ghost use Rattle.txf_overlay.specs.Views.{seat_at, StandsOver};
ghost use Rattle.txf_overlay.specs.Sight.{sight_of};

use crate::maps::get;
use crate::node::{given_parent, seen};
use crate::overlay::Overlay;
use ktm_base::MOST_NAME_BYTES;
use ktm_links::Name;
use ktm_names::ROOT;
use ktm_world::NodeKind;
use txf_tree::{Tree, child_name};

/// A node as a transaction sees it.
#[derive(Clone, Copy)]
pub struct Seen {
    /// The number of the directory that it is in.
    pub parent: u64,
    pub is_file: bool,
}

// Is a node of this kind a file.
fn is_kind_of_file(kind: NodeKind) -> bool
    ensures { result ≡ is_some (new_content kind) }
{
    match kind {
        NodeKind::File => true,
        NodeKind::Directory => false,
    }
}

impl Overlay {
    // As which kind the node was made last, if it was made.
    fn made_kind(&self, node: u64) -> Option<NodeKind>
        ensures kind { result ≡ made_kind self.now.names node }
        ensures only { list_all is_of_names self.now.names ≡ true }
    {
        match seen(&self.nodes, node) {
            Some(seen) => seen.made,
            None => None,
        }
    }

    // Which node stands now at a place, if the place is held.
    pub(crate) fn seat(&self, directory: u64, name: &[u8]) -> Option<Option<u64>>
        requires { length name.now ≤ MOST_NAME_BYTES }
        ensures seat { result ≡ seat_at self.now.held (place_bytes (place directory name.now)) }
        ensures only { list_all is_of_names self.now.names ≡ true }
    {
        get(&self.seats, child_name(directory, name).as_slice()).copied()
    }

    // The number of the directory that a node is in that is seen.
    fn parent(&self, tree: &Tree, node: u64) -> Option<u64>
        requires { StandsOver (tree_of tree.now) self.now }
        ensures { result ≡ option_map (λ n. n.parent) (node_at (seen (tree_of tree.now) self.now) node) }
    {
        match self.last_change(node) {
            Some(change) => given_parent(change),
            None => match tree.node(node) {
                Some(node) => Some(node.parent),
                None => None,
            },
        }
    }

    // Is the node, if it is seen, a file.
    pub(crate) fn is_file(&self, tree: &Tree, node: u64) -> bool
        requires { StandsOver (tree_of tree.now) self.now }
        ensures { (n : Node) → node_at (seen (tree_of tree.now) self.now) node ≡ Some n → result ≡ is_some n.content }
    {
        match self.made_kind(node) {
            Some(kind) => is_kind_of_file(kind),
            None => tree.is_file(node),
        }
    }

    /// The node with the number, if it is seen. The root is not.
    pub fn node(&self, tree: &Tree, number: u64) -> Option<Seen>
        requires { StandsOver (tree_of tree.now) self.now }
        ensures { result ≡ option_map sight_of (node_at (seen (tree_of tree.now) self.now) number) }
    {
        match self.parent(tree, number) {
            Some(parent) => Some(Seen {
                parent,
                is_file: self.is_file(tree, number),
            }),
            None => None,
        }
    }

    /// The number of the node with the name in the directory, if one is seen.
    pub fn child(&self, tree: &Tree, directory: u64, name: &[u8]) -> Option<u64>
        requires { StandsOver (tree_of tree.now) self.now }
        ensures { result ≡ option_map (λ node. node.number) (child_of (seen (tree_of tree.now) self.now) directory name.now) }
    {
        if name.len() > MOST_NAME_BYTES {
            return None;
        }
        match self.seat(directory, name) {
            Some(node) => node,
            None => tree.child(directory, name),
        }
    }

    // The number of the directory that a node is in that is seen. The root is its own, and any other is in the root.
    fn parent_or_root(&self, tree: &Tree, node: u64) -> u64
        requires { StandsOver (tree_of tree.now) self.now }
        ensures { result ≡ parent_of (node_at (seen (tree_of tree.now) self.now) node) }
    {
        match self.parent(tree, node) {
            Some(parent) => parent,
            None => ROOT,
        }
    }

    /// Is a node that is seen, or the root, the other one, or below it. It goes up from the node, and ends at the root.
    pub fn is_at_or_below(&self, tree: &Tree, number: u64, other: u64) -> bool
        requires stands { StandsOver (tree_of tree.now) self.now }
        requires there { is_there (seen (tree_of tree.now) self.now) number ≡ true }
        ensures { result ≡ is_at_or_below (seen (tree_of tree.now) self.now) number other }
    {
        // No more nodes are seen than this.
        let most = tree.len() as u128 + self.changes_len() as u128;
        let mut at = number;
        for _ in 0..most {
            if at == other {
                return true;
            }
            let above = self.parent_or_root(tree, at);
            if above == at {
                return false;
            }
            at = above;
        }
        at == other
    }
}
