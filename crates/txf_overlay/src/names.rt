// Nodes that a transaction makes, moves and drops.
ghost use Rattle.std.specs.Prelude.{◌≡◌, ◌+◌, ◌<◌, ◌≤◌, ◌++◌, ◌∷◌, [], true, Some, None, length, vec_len, vec_capacity, ℕ, List};
ghost use Rattle.std.specs.List.{list_all, slice_get};
ghost use Rattle.std.specs.Option.{option_copied, option_map};
ghost use Rattle.txf_overlay.specs.OverlayState.{is_of_names, seen};
ghost use Rattle.ktm_world.specs.declared.change.Change.TheVariants.{Make, Move, Drop};
ghost use Rattle.ktm_world.specs.Changes.{applies, changed};
ghost use Rattle.ktm_world.specs.Tree.{Tree as Nodes, IsWellFormed, node_at};
ghost use Rattle.txf_tree.specs.TreeState.{tree_of};
ghost use Rattle.txf_overlay.specs.Names.{place_in};
ghost use Rattle.txf_overlay.specs.Nodes.{last_of};
ghost use Rattle.txf_overlay.specs.Views.{StandsOver};
ghost use Rattle.txf_overlay.specs.Written.{with_made, without_file};

use crate::maps::set;
use crate::node::{NodeSeen, dropped, given, less, moved, one_more, seen};
use crate::overlay::Overlay;
use ktm_base::Text;
use ktm_world::{Change, NodeKind};
use txf_tree::{ChildName, Tree, child_name, number_bytes};

// One change more, for which there is room.
fn push(names: &mut Vec<Change>, change: Change)
    requires { vec_len names.old < vec_capacity names.old }
    ensures names { names.new.items ≡ names.old.items ++ change ∷ [] }
    ensures len { vec_len names.new ≡ vec_len names.old + 1 }
    ensures capacity { vec_capacity names.new ≡ vec_capacity names.old }
{
    names.push_reserved(change);
}

fn count(names: &[Change]) -> usize
    ensures { result ≡ length names.now }
{
    names.len()
}

// The change at this place.
fn change_at(names: &[Change], place: usize) -> Option<&Change>
    ensures { option_copied result ≡ slice_get names.now place }
{
    names.get(place)
}

impl Overlay {
    /// The last change of a node, if it was made, moved or dropped.
    pub fn last_change(&self, node: u64) -> Option<&Change>
        ensures last { option_copied result ≡ last_of self.now.names node }
        ensures only { list_all is_of_names self.now.names ≡ true }
    {
        match seen(&self.nodes, node) {
            Some(seen) => change_at(&self.names, seen.last),
            None => None,
        }
    }

    // The name of the place where a node is that is seen.
    fn place_of(&self, tree: &Tree, node: u64) -> ChildName
        requires stands { StandsOver (tree_of tree.now) self.now }
        requires there { (x : _) × (node_at (seen (tree_of tree.now) self.now) node ≡ Some x) }
        ensures { Some result ≡ option_map place_in (node_at (seen (tree_of tree.now) self.now) node) }
    {
        match self.last_change(node) {
            Some(change) => match given(change) {
                Some(place) => place,
                None => unreachable!(),
            },
            None => match tree.node(node) {
                Some(at) => child_name(at.parent, at.name),
                None => unreachable!(),
            },
        }
    }

    /// Makes a file without bytes, or a directory. It takes no memory.
    pub fn make(&mut self, node: u64, parent: u64, kind: NodeKind, name: Text)
        requires spare { 0 < self.old.spare }
        requires applies { (tree : Nodes) × StandsOver tree self.old × (applies (seen tree self.old) (Make node parent kind name) ≡ true) }
        ensures names { self.new.names ≡ self.old.names ++ Make node parent kind name ∷ [] }
        ensures written { self.new.written ≡ with_made self.old.written node kind }
        ensures stands { (tree : Nodes) → StandsOver tree self.old → applies (seen tree self.old) (Make node parent kind name) ≡ true → IsWellFormed (changed (seen tree self.old) (Make node parent kind name)) → StandsOver tree self.new }
        ensures spare { self.old.spare ≤ self.new.spare + 1 }
    {
        let last = count(&self.names);
        let made = NodeSeen {
            last,
            made: Some(kind),
            is_counted: true,
        };
        let place = child_name(parent, name.as_slice());
        set(&mut self.seats, place, Some(node));
        set(&mut self.nodes, number_bytes(node), made);
        self.files.add(node, kind);
        push(
            &mut self.names,
            Change::Make {
                node,
                parent,
                kind,
                name,
            },
        );
        self.made = one_more(self.made, count(&self.names));
    }

    /// Gives a node that is seen another name, or moves it into another directory. It takes no memory.
    pub fn move_to(&mut self, tree: &Tree, node: u64, parent: u64, name: Text)
        requires spare { 0 < self.old.spare }
        requires stands { StandsOver (tree_of tree.now) self.old }
        requires applies { applies (seen (tree_of tree.now) self.old) (Move node parent name) ≡ true }
        ensures names { self.new.names ≡ self.old.names ++ Move node parent name ∷ [] }
        ensures written { self.new.written ≡ self.old.written }
        ensures stands { IsWellFormed (changed (seen (tree_of tree.now) self.old) (Move node parent name)) → StandsOver (tree_of tree.now) self.new }
        ensures spare { self.old.spare ≤ self.new.spare + 1 }
    {
        let from = self.place_of(tree, node);
        let to = child_name(parent, name.as_slice());
        let after = moved(seen(&self.nodes, node), count(&self.names));
        set(&mut self.seats, from, None);
        set(&mut self.seats, to, Some(node));
        set(&mut self.nodes, number_bytes(node), after);
        push(&mut self.names, Change::Move { node, parent, name });
    }

    /// Drops a node that is seen, and the bytes of a file that are written. It takes no memory.
    pub fn remove(&mut self, tree: &Tree, node: u64)
        requires spare { 0 < self.old.spare }
        requires stands { StandsOver (tree_of tree.now) self.old }
        requires applies { applies (seen (tree_of tree.now) self.old) (Drop node) ≡ true }
        ensures names { self.new.names ≡ self.old.names ++ Drop node ∷ [] }
        ensures written { self.new.written ≡ without_file self.old.written node }
        ensures stands { IsWellFormed (changed (seen (tree_of tree.now) self.old) (Drop node)) → StandsOver (tree_of tree.now) self.new }
        ensures spare { self.old.spare ≤ self.new.spare + 1 }
    {
        let from = self.place_of(tree, node);
        let before = seen(&self.nodes, node);
        let after = dropped(before, count(&self.names));
        set(&mut self.seats, from, None);
        set(&mut self.nodes, number_bytes(node), after);
        self.files.remove(node);
        self.made = less(self.made, before);
        push(&mut self.names, Change::Drop { node });
    }
}
