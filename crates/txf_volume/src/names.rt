// The names that a caller sees.
ghost use Rattle.std.specs.Prelude.{◌≡◌, ◌||◌, IfOk, IfSome, is_some};
ghost use Rattle.std.specs.Option.{option_copied, option_map};
ghost use Rattle.ktm_world.specs.Changes.{has_made};
ghost use Rattle.ktm_world.specs.Files.{first_open_of, own_changes, tree_seen};
ghost use Rattle.ktm_world.specs.Tree.{child_of, node_at};
ghost use Rattle.txf_overlay.specs.OverlayState.{seen};
ghost use Rattle.txf_overlay.specs.Views.{StandsOver};
ghost use Rattle.txf_calls.specs.Leads.{seen_of};
ghost use Rattle.txf_tree.specs.Children.{entries_in, matching};
ghost use Rattle.txf_tree.specs.TreeState.{tree_of};
ghost use Rattle.txf_volume.specs.Held.{files_of};
ghost use Rattle.txf_volume.specs.Ties.{seen_by, IsOver};

use crate::files::Files;
use ktm_base::{Id, NoMemory};
use ktm_names::Pattern;
use txf_calls::Seen;
use txf_overlay::Overlay;
use txf_tree::Entries;

impl Files {
    // What the caller changed, if it is a transaction that changed anything.
    pub(crate) fn overlay_for(&self, who: Option<Id>) -> Option<&Overlay>
        ensures tree { tree_seen (files_of self.now) who ≡ seen_by (tree_of self.now.tree) (option_copied result) }
        ensures over { IfSome result (λ overlay. IsOver (tree_of self.now.tree) overlay.now) }
    {
        match who {
            Some(transaction) => self.overlay(transaction),
            None => None,
        }
    }

    // A committed node.
    fn committed(&self, number: u64) -> Option<Seen>
        ensures { result ≡ option_map seen_of (node_at (tree_of self.now.tree) number) }
    {
        match self.tree.node(number) {
            Some(node) => Some(Seen {
                number: node.number,
                parent: node.parent,
                is_file: node.content.is_some(),
            }),
            None => None,
        }
    }

    // A node as a transaction sees it.
    fn seen_over(&self, overlay: &Overlay, number: u64) -> Option<Seen>
        requires { StandsOver (tree_of self.now.tree) overlay.now }
        ensures { result ≡ option_map seen_of (node_at (seen (tree_of self.now.tree) overlay.now) number) }
    {
        match overlay.node(&self.tree, number) {
            Some(node) => Some(Seen {
                number,
                parent: node.parent,
                is_file: node.is_file,
            }),
            None => None,
        }
    }

    // The committed node with the name in the directory.
    pub(crate) fn committed_child(&self, directory: u64, name: &[u8]) -> Option<Seen>
        ensures { result ≡ option_map seen_of (child_of (tree_of self.now.tree) directory name.now) }
    {
        match self.tree.child(directory, name) {
            Some(number) => self.committed(number),
            None => None,
        }
    }

    // The node with the name in the directory, as a transaction sees it.
    pub(crate) fn child_over(&self, overlay: &Overlay, directory: u64, name: &[u8]) -> Option<Seen>
        requires { StandsOver (tree_of self.now.tree) overlay.now }
        ensures { result ≡ option_map seen_of (child_of (seen (tree_of self.now.tree) overlay.now) directory name.now) }
    {
        match overlay.child(&self.tree, directory, name) {
            Some(number) => self.seen_over(overlay, number),
            None => None,
        }
    }

    // Has the transaction opened the file, or made it.
    pub(crate) fn knows(&self, transaction: Id, file: u64) -> bool
        ensures { result ≡ (has_made (own_changes (files_of self.now).table.own transaction) file || is_some (first_open_of (files_of self.now).first_opens transaction file)) }
    {
        self.has_made(transaction, file) || self.has_opened(transaction, file)
    }

    // Has the transaction made the file, whatever it did with it then.
    fn has_made(&self, transaction: Id, file: u64) -> bool
        ensures { result ≡ has_made (own_changes (files_of self.now).table.own transaction) file }
    {
        match self.overlay(transaction) {
            Some(overlay) => overlay.has_made(file),
            None => false,
        }
    }

    // Has the transaction opened the file.
    fn has_opened(&self, transaction: Id, file: u64) -> bool
        ensures { result ≡ is_some (first_open_of (files_of self.now).first_opens transaction file) }
    {
        match self.versions.first_open(transaction, file) {
            Some(_) => true,
            None => false,
        }
    }

    // The entries of a directory that a pattern matches.
    pub(crate) fn entries(
        &self,
        who: Option<Id>,
        directory: u64,
        pattern: &Pattern,
    ) -> Result<Entries<'_>, NoMemory>
        ensures { IfOk result (λ entries. entries ≡ matching pattern.now.last (entries_in (tree_seen (files_of self.now) who) directory)) }
    {
        match self.overlay_for(who) {
            Some(overlay) => overlay.entries(&self.tree, directory, pattern),
            None => self.tree.entries(directory, pattern),
        }
    }
}
