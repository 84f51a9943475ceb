// When a change of the names applies.
ghost use Rattle.std.specs.Prelude.{◌≡◌, ◌&&◌, ℕ, List, not};
ghost use Rattle.ktm_world.specs.declared.change.Change.TheVariants.{Make, Move, Drop};
ghost use Rattle.ktm_world.specs.declared.change.NodeKind.{NodeKind};
ghost use Rattle.ktm_world.specs.Changes.{applies, is_free, is_node_number};
ghost use Rattle.ktm_world.specs.Paths.{is_name};
ghost use Rattle.ktm_world.specs.Tree.{is_directory, is_there};
ghost use Rattle.txf_nodes.specs.NodesState.{tree_by};

use crate::table::NodeTable;
use ktm_names::ROOT;
use ktm_world::law_of_paths;

/// May a new node have this number.
pub fn is_node_number(number: u64) -> bool
    ensures { result ≡ is_node_number number }
{
    (2..1 << 63).contains(&number)
}

/// May a node have this name.
pub fn is_name(name: &[u8]) -> bool
    ensures { result ≡ is_name name.now }
{
    law_of_paths();
    ktm_names::is_name(name)
}

impl<C> NodeTable<C> {
    /// May a node with this number come into the directory under this name. It takes no memory, and looks up what it names.
    pub fn may_make(&self, node: u64, parent: u64, name: &[u8]) -> bool
        ensures { (bytes : C → List ℕ) (kind : NodeKind) → result ≡ applies (tree_by bytes self.now) (Make node parent kind name.now) }
    {
        self.is_new_place(node, parent, name) && self.is_free(parent, name)
    }

    /// May the node get this directory and this name. It goes up from the directory to the root.
    pub fn may_move(&self, node: u64, parent: u64, name: &[u8]) -> bool
        ensures { (bytes : C → List ℕ) → result ≡ applies (tree_by bytes self.now) (Move node parent name.now) }
    {
        node != ROOT
            && self.is_there(node)
            && self.is_directory(parent)
            && !self.is_at_or_below(parent, node)
            && is_name(name)
            && self.is_free(parent, name)
    }

    /// May the node be dropped.
    pub fn may_drop(&self, node: u64) -> bool
        ensures { (bytes : C → List ℕ) → result ≡ applies (tree_by bytes self.now) (Drop node) }
    {
        node != ROOT && self.is_there(node) && !self.has_entries(node)
    }

    // May a node with this number come into the directory under this name, if the name is free.
    #[inline(always)]
    pub(crate) fn is_new_place(&self, node: u64, parent: u64, name: &[u8]) -> bool
        ensures { (bytes : C → List ℕ) → result ≡ (is_node_number node && not (is_there (tree_by bytes self.now) node) && is_directory (tree_by bytes self.now) parent && is_name name.now) }
    {
        is_node_number(node) && !self.is_there(node) && self.is_directory(parent) && is_name(name)
    }

    // Is there a node with the number. The root always is.
    fn is_there(&self, number: u64) -> bool
        ensures { (bytes : C → List ℕ) → result ≡ is_there (tree_by bytes self.now) number }
    {
        number == ROOT || self.node(number).is_some()
    }

    // Has no node of the directory the name.
    fn is_free(&self, directory: u64, name: &[u8]) -> bool
        ensures { (bytes : C → List ℕ) → result ≡ is_free (tree_by bytes self.now) directory name.now }
    {
        self.child(directory, name).is_none()
    }
}
