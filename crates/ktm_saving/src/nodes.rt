// The committed files and directories.
ghost use Rattle.std.specs.Prelude.{◌≡◌, ◌+◌, ◌≤◌, sum_by, true, vec_capacity, vec_len};
ghost use Rattle.ktm_snapshot.specs.Sizes.{node_size};
ghost use Rattle.ktm_snapshot.specs.StateGrammar.{AreNodesOf, IsNodeOf};
ghost use Rattle.ktm_saving.specs.Spellable.{AreSpellable, IsSpellableNode};
ghost use Rattle.ktm_saving.specs.Writes.{Writes};
ghost use Rattle.ktm_world.specs.Tree.{numbers_rise};
ghost use Rattle.txf_tree.specs.Children.{node_seen};
ghost use Rattle.txf_tree.specs.TreeState.{tree_of};

use ktm_codec::put_u32;
use ktm_snapshot::{ShownNode, law_of_writing, put_node};
use txf_tree::{NodeRef, Tree};

fn write_node(node: NodeRef<'_>, out: &mut Vec<u8>)
    requires spelled { IsSpellableNode (node_seen node) }
    requires room { vec_len out.old + node_size (node_seen node) ≤ vec_capacity out.old }
    ensures { Writes (IsNodeOf (node_seen node.entry)) (node_size (node_seen node.entry)) out.old out.new }
{
    let node = ShownNode {
        number: node.number,
        parent: node.parent,
        name: node.name,
        content: node.content,
    };
    put_node(out, &node);
}

/// Writes the nodes but the root, by rising number, behind their count. It takes no memory.
pub(crate) fn write_nodes(tree: &Tree, out: &mut Vec<u8>)
    requires spelled { AreSpellable IsSpellableNode (tree_of tree.now) }
    requires rise { numbers_rise (tree_of tree.now) ≡ true }
    requires room { vec_len out.old + (4 + sum_by node_size (tree_of tree.now)) ≤ vec_capacity out.old }
    ensures { Writes (AreNodesOf (tree_of tree.now)) (4 + sum_by node_size (tree_of tree.now)) out.old out.new }
{
    law_of_writing();
    put_u32(out, tree.len() as u32);
    let mut nodes = tree.nodes();
    'nodes: while let Some(node) = nodes.next() {
        write_node(node, out);
    }
}
