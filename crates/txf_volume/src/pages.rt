// The pages that the files in memory name.
ghost use Rattle.std.specs.Prelude.{◌≡◌, ◌⊎◌, ◌∷◌, ◌+◌, ◌*◌, ◌≤◌, ℕ, [], length, sum_by, true};
ghost use Rattle.ktm_each.specs.Each.{EachOfFiles};
ghost use Rattle.ktm_store.specs.Holding.{AreAllBelow, HavePage, HoldsContents};
ghost use Rattle.ktm_store.specs.Marks.{free_ahead, is_held};
ghost use Rattle.ktm_store.specs.Store.{AreBelow, IsHeldAt};
ghost use Rattle.ktm_world.specs.FileUses.{units_used};
ghost use Rattle.ktm_world.specs.Tree.{bytes_or_none};
ghost use Rattle.txf_overlay.specs.Written.{total_units};
ghost use Rattle.txf_tree.specs.Children.{node_seen};
ghost use Rattle.txf_tree.specs.TreeState.{tree_of};
ghost use Rattle.txf_volume.specs.Held.{files_of, node_units, tree_units};
ghost use Rattle.txf_volume.specs.Pages.{all_written, named_contents, tree_contents, written_contents};
ghost use Rattle.txf_volume.specs.Ties.{units_held};

use crate::files::{Files, law_of_older};
use crate::own::Overlays;
use ktm_store::Store;
use txf_overlay::Overlay;
use txf_tree::{NodeRef, Tree};

// Holds the pages of a node, if it is a file.
fn hold_node(store: &mut Store, node: NodeRef<'_>)
    requires { AreBelow (length store.old.marks.held) (bytes_or_none (node_seen node).content) }
    ensures { HoldsContents (bytes_or_none (node_seen node.entry).content ∷ []) (node_units (node_seen node.entry)) store.old store.new }
{
    match node.content {
        Some(content) => store.hold(content),
        None => {}
    }
}

// Holds the pages of the committed files.
fn hold_tree(store: &mut Store, tree: &Tree)
    requires { AreAllBelow store.old (tree_contents (tree_of tree.now)) }
    ensures { HoldsContents (tree_contents (tree_of tree.now)) (tree_units (tree_of tree.now)) store.old store.new }
{
    let mut left = tree.nodes();
    'nodes: while let Some(node) = left.next() {
        hold_node(store, node);
    }
}

// Holds the pages of the files that a transaction wrote.
fn hold_written(store: &mut Store, overlay: &Overlay)
    requires { AreAllBelow store.old (written_contents overlay.now.written) }
    ensures { HoldsContents (written_contents overlay.now.written) (total_units overlay.now.written) store.old store.new }
{
    overlay.law_of_files();
    let mut next = overlay.written_from(0);
    'files: while let Some(written) = next {
        store.hold(written.bytes());
        next = overlay.written_behind(written.file());
    }
}

impl Overlays {
    // Holds the pages of the files that transactions wrote.
    fn hold_pages(&self, store: &mut Store)
        requires { AreAllBelow store.old (all_written self.now) }
        ensures { HoldsContents (all_written self.now) (sum_by units_held self.now) store.old store.new }
    {
        for own in &self.entries {
            hold_written(store, &own.overlay);
        }
    }
}

impl Files {
    /// Holds the pages of all contents that are in memory: of the committed files, of the versions that transactions opened, and of
    /// what they wrote. These are as many pages at most as there are units in use. It takes no memory.
    pub fn hold_pages(&self, store: &mut Store)
        requires { EachOfFiles (λ file index place. place ≤ length store.old.marks.held * 4096) (files_of self.now) }
        ensures seen { store.new.seen ≡ store.old.seen }
        ensures stored { store.new.stored ≡ store.old.stored }
        ensures wanted { store.new.wanted ≡ store.old.wanted }
        ensures next { store.new.marks.next ≡ store.old.marks.next }
        ensures count { length store.new.marks.held ≡ length store.old.marks.held }
        ensures places { EachOfFiles (λ file index place. IsHeldAt store.new.marks place) (files_of self.now) }
        ensures kept { (page : ℕ) → is_held store.old.marks.held page ≡ true → is_held store.new.marks.held page ≡ true }
        ensures only { (page : ℕ) → is_held store.new.marks.held page ≡ true → (is_held store.old.marks.held page ≡ true) ⊎ HavePage (named_contents (files_of self.now)) page }
        ensures free { free_ahead store.old.marks ≤ free_ahead store.new.marks + units_used (files_of self.now) }
    {
        law_of_older(&self.versions);
        hold_tree(store, &self.tree);
        self.versions.hold_pages(store);
        self.overlays.hold_pages(store);
    }
}
