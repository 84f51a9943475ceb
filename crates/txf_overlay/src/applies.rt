// When a change applies over what a transaction changed.
ghost use Rattle.std.specs.Prelude.{◌≡◌, true};
ghost use Rattle.ktm_world.specs.declared.change.Change.TheVariants.{Make, Move, Drop};
ghost use Rattle.ktm_world.specs.declared.change.NodeKind.{NodeKind};
ghost use Rattle.ktm_world.specs.Changes.{applies, is_free};
ghost use Rattle.ktm_world.specs.Tree.{is_directory, is_file, is_there};
ghost use Rattle.txf_tree.specs.TreeState.{tree_of};
ghost use Rattle.txf_overlay.specs.OverlayState.{seen};
ghost use Rattle.txf_overlay.specs.Views.{StandsOver};

use crate::overlay::Overlay;
use ktm_names::ROOT;
use ktm_world::Change;
use txf_tree::{Tree, is_name, is_node_number, is_whole};

impl Overlay {
    /// Does the change apply to what is seen. It takes no memory, and looks up what it names; a move goes up from its directory
    /// to the root.
    pub fn applies(&self, tree: &Tree, change: &Change) -> bool
        requires { StandsOver (tree_of tree.now) self.now }
        ensures { result ≡ applies (seen (tree_of tree.now) self.now) change.now }
    {
        match change {
            Change::Make {
                node,
                parent,
                name,
                ..
            } => self.may_make(tree, *node, *parent, name.as_slice()),
            Change::Put { node, contents, .. } => {
                self.is_seen_file(tree, *node) && is_whole(contents)
            }
            Change::Cut { node, pages, .. } => self.is_seen_file(tree, *node) && pages.is_empty(),
            Change::Move { node, parent, name } => {
                self.may_move(tree, *node, *parent, name.as_slice())
            }
            Change::Drop { node } => self.may_drop(tree, *node),
        }
    }

    // Is a file with the number seen.
    fn is_seen_file(&self, tree: &Tree, number: u64) -> bool
        requires { StandsOver (tree_of tree.now) self.now }
        ensures { result ≡ is_file (seen (tree_of tree.now) self.now) number }
    {
        match self.node(tree, number) {
            Some(node) => node.is_file,
            None => false,
        }
    }

    // Is a directory with the number seen. The root always is.
    fn is_seen_directory(&self, tree: &Tree, number: u64) -> bool
        requires { StandsOver (tree_of tree.now) self.now }
        ensures { result ≡ is_directory (seen (tree_of tree.now) self.now) number }
    {
        self.is_there(tree, number) && !self.is_seen_file(tree, number)
    }

    // Is a node with the number seen. The root always is.
    fn is_there(&self, tree: &Tree, number: u64) -> bool
        requires { StandsOver (tree_of tree.now) self.now }
        ensures { result ≡ is_there (seen (tree_of tree.now) self.now) number }
    {
        number == ROOT || self.node(tree, number).is_some()
    }

    // Has no node that is seen in the directory the name.
    fn is_free(&self, tree: &Tree, directory: u64, name: &[u8]) -> bool
        requires { StandsOver (tree_of tree.now) self.now }
        ensures { result ≡ is_free (seen (tree_of tree.now) self.now) directory name.now }
    {
        self.child(tree, directory, name).is_none()
    }

    fn may_make(&self, tree: &Tree, node: u64, parent: u64, name: &[u8]) -> bool
        requires { StandsOver (tree_of tree.now) self.now }
        ensures { (kind : NodeKind) → result ≡ applies (seen (tree_of tree.now) self.now) (Make node parent kind name.now) }
    {
        is_node_number(node)
            && !self.is_there(tree, node)
            && self.is_seen_directory(tree, parent)
            && is_name(name)
            && self.is_free(tree, parent, name)
    }

    fn may_move(&self, tree: &Tree, node: u64, parent: u64, name: &[u8]) -> bool
        requires { StandsOver (tree_of tree.now) self.now }
        ensures { result ≡ applies (seen (tree_of tree.now) self.now) (Move node parent name.now) }
    {
        node != ROOT
            && self.is_there(tree, node)
            && self.is_seen_directory(tree, parent)
            && !self.is_at_or_below(tree, parent, node)
            && is_name(name)
            && self.is_free(tree, parent, name)
    }

    fn may_drop(&self, tree: &Tree, node: u64) -> bool
        requires { StandsOver (tree_of tree.now) self.now }
        ensures { result ≡ applies (seen (tree_of tree.now) self.now) (Drop node) }
    {
        node != ROOT && self.is_there(tree, node) && !self.has_entries(tree, node)
    }
}
