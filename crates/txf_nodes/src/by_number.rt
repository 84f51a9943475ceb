// The nodes, one after another.
ghost use Rattle.std.specs.Prelude.{◌≡◌, ◌++◌, [], IfNone, option_copied, option_to_list};
ghost use Rattle.txf_nodes.specs.Indexes.{nodes_of, AreNumbered};

use crate::name::NumberName;
use crate::stored::StoredNode;
use ktm_links::{Key, List, Walk};
use std::marker::Model;

/// The nodes that are left, by rising number. Each next one is found without a search.
#[derive(Drop)]
pub struct ByNumber<'a, C> {
    nodes: &'a List<StoredNode<C>>,
    keys: Walk<'a, NumberName, Key>,
}

impl<'a, C> Model for ByNumber<'a, C> {
    ghost use Rattle.std.specs.Prelude.{List};
    ghost use Rattle.std.specs.Coded.{coded_list};
    ghost use Rattle.txf_nodes.specs.NodesState.{NodeOf, node_code};

    ghost Value = { List (NodeOf C) };

    ghost coded = { coded_list (node_code C.code) };

    ghost use Rattle.txf_nodes.specs.Indexes.{nodes_of, AreNumbered};

    ghost view = { λ b. nodes_of b.nodes.now.items b.keys };

    ghost invariant = { λ b. AreNumbered b.nodes.now.items b.keys };
}

impl<'a, C> ByNumber<'a, C> {
    pub(crate) fn new(
        nodes: &'a List<StoredNode<C>>,
        keys: Walk<'a, NumberName, Key>,
    ) -> ByNumber<'a, C>
        requires { AreNumbered nodes.now.items keys }
        ensures { result ≡ nodes_of nodes.now.items keys.entry }
    {
        ByNumber { nodes, keys }
    }

    /// The next node, if one is left.
    pub fn next(&mut self) -> Option<&'a StoredNode<C>>
        ensures first { self.old ≡ option_to_list (option_copied result) ++ self.new }
        ensures none { IfNone result (self.old ≡ []) }
    {
        match self.keys.next() {
            Some(entry) => self.nodes.get(*entry.value),
            None => None,
        }
    }
}
