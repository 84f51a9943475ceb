// What a transaction changed, as it is recorded: its changes of names, and the pages of the files that it wrote.
ghost use Rattle.std.specs.Prelude.{◌≡◌, ◌<◌, ◌≤◌, ◌^◌, All, filter, true};
ghost use Rattle.ktm_event.specs.OnPages.{AreEach, IsRecordedChange};
ghost use Rattle.ktm_event.specs.Work.{changes_of};
ghost use Rattle.ktm_world.specs.Changes.{has_changes, is_make, node_of};
ghost use Rattle.ktm_world.specs.Durable.{next_after_all};
ghost use Rattle.ktm_world.specs.Files.{own_changes};
ghost use Rattle.txf_overlay.specs.OverlayState.{is_of_names};
ghost use Rattle.txf_volume.specs.Held.{files_of};
ghost use Rattle.txf_volume.specs.Shown.{shown};

use crate::files::Files;
use crate::written::Written;
use ktm_base::Id;
use ktm_world::Change;
use txf_tree::next_after;

// The number of the next node, once changes of names have made theirs.
fn next_after_names(next: u64, names: &[Change]) -> u64
    requires { All (λ change. is_make change ≡ true → node_of change < 2 ^ 63) names.now }
    ensures { result ≡ next_after_all next names.now }
{
    let mut number = next;
    for change in names {
        number = next_after(number, change);
    }
    number
}

impl Files {
    /// Has the transaction changed anything of the files.
    pub fn has_changes(&self, transaction: Id) -> bool
        ensures { result ≡ has_changes (own_changes (files_of self.now).table.own transaction) }
    {
        match self.overlay(transaction) {
            Some(overlay) => !overlay.is_empty(),
            None => false,
        }
    }

    /// What the transaction made, moved and dropped, in order.
    pub fn names(&self, transaction: Id) -> &[Change]
        ensures { result.now ≡ filter is_of_names (own_changes (files_of self.now).table.own transaction) }
    {
        match self.overlay(transaction) {
            Some(overlay) => overlay.names(),
            None => &[],
        }
    }

    /// The files that the transaction wrote or made, by rising number, with the pages of all of their bytes, shown where they
    /// stand. With what it made, moved and dropped they are its changes as they are recorded.
    pub fn written(&self, transaction: Id) -> Written<'_>
        ensures { AreEach IsRecordedChange (own_changes (files_of self.now).table.own transaction) (changes_of (filter is_of_names (own_changes (files_of self.now).table.own transaction)) (shown result)) }
    {
        match self.overlay(transaction) {
            Some(overlay) => {
                overlay.law_of_files();
                Written {
                    overlay: Some(overlay),
                }
            }
            None => Written::none(),
        }
    }

    /// The number of the next node, once the nodes are there too that the transaction makes.
    pub fn next_after(&self, transaction: Id, next: u64) -> u64
        ensures next { result ≡ next_after_all next (own_changes (files_of self.now).table.own transaction) }
        ensures few { next ≤ 2 ^ 63 → result ≤ 2 ^ 63 }
    {
        match self.overlay(transaction) {
            Some(overlay) => next_after_names(next, overlay.names()),
            None => next,
        }
    }
}
