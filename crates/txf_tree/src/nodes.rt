// The nodes, one after another.
ghost use Rattle.std.specs.Prelude.{◌≡◌, ◌++◌, [], IfNone, map, option_to_list};
ghost use Rattle.std.specs.Option.{option_map};
ghost use Rattle.txf_tree.specs.Children.{node_seen};
ghost use Rattle.txf_tree.specs.TreeState.{plain};

use crate::node_ref::{NodeRef, node_ref};
use ktm_content::Content;
use std::marker::Model;
use txf_nodes::ByNumber;

/// The nodes that are left, by rising number. Each next one is found without a search.
#[derive(Drop)]
pub struct Nodes<'a> {
    nodes: ByNumber<'a, Content>,
}

impl<'a> Model for Nodes<'a> {
    ghost use Rattle.std.specs.Prelude.{List, map};
    ghost use Rattle.ktm_world.specs.declared.recorded.Node.{Node};
    ghost use Rattle.txf_tree.specs.TreeState.{plain};

    ghost Value = { List Node };

    ghost view = { λ n. map plain n.nodes };
}

impl<'a> Nodes<'a> {
    pub(crate) fn new(nodes: ByNumber<'a, Content>) -> Nodes<'a>
        ensures { result ≡ map plain nodes.entry }
    {
        Nodes { nodes }
    }

    /// The next node, if one is left.
    pub fn next(&mut self) -> Option<NodeRef<'a>>
        ensures first { self.old ≡ option_to_list (option_map node_seen result) ++ self.new }
        ensures none { IfNone result (self.old ≡ []) }
    {
        match self.nodes.next() {
            Some(node) => Some(node_ref(node)),
            None => None,
        }
    }
}
