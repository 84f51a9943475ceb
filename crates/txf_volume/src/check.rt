// Whether a call is refused for what others hold and have open.
ghost use Rattle.std.specs.Prelude.{◌≡◌, ◌==◌, ◌&&◌};
ghost use Rattle.ktm_world.specs.Conflicts.{changes_outdated, conflicts, is_outdated};
ghost use Rattle.ktm_world.specs.Files.{first_open_of};
ghost use Rattle.ktm_world.specs.Holds.{Act as Deed, file_changed};
ghost use Rattle.txf_opens.specs.Acts.{act_of, violates, HasShortNames};
ghost use Rattle.txf_reserve.specs.Acts.{listed};
ghost use Rattle.txf_reserve.specs.Checks.{refusal_of};
ghost use Rattle.ktm_world.specs.Committed.{version_of};
ghost use Rattle.ktm_world.specs.Tree.{is_file};
ghost use Rattle.txf_tree.specs.TreeState.{tree_of, versions_of};
ghost use Rattle.txf_volume.specs.Held.{files_of};

use crate::files::Files;
use ktm_base::{Id, Refusal};
use txf_opens::{Act, asks_write};

// The file that a call changes.
fn changed_file(act: &Act<'_>) -> Option<u64>
    ensures { listed result ≡ file_changed (act_of act.now) }
{
    match *act {
        Act::Open {
            file,
            access,
            truncates,
            ..
        } => {
            if asks_write(access, truncates) {
                Some(file)
            } else {
                None
            }
        }
        Act::Delete { file, .. } => Some(file),
        Act::MoveFile { file, .. } => Some(file),
        Act::Make { .. } => None,
        Act::DropDirectory { .. } => None,
        Act::MoveDirectory { .. } => None,
    }
}

impl Files {
    // Is the version of a file the last one.
    fn is_last(&self, file: u64, version: u64) -> bool
        ensures { result ≡ (is_file (tree_of self.now.tree) file && version == version_of (versions_of self.now.tree) file) }
    {
        self.tree.is_file(file) && version == self.tree.version(file)
    }

    // Did the transaction fix a version of the file that is not the last one.
    fn is_outdated(&self, transaction: Id, file: u64) -> bool
        ensures { result ≡ is_outdated (files_of self.now) (first_open_of (files_of self.now).first_opens transaction file) }
    {
        match self.versions.first_open(transaction, file) {
            Some(version) => !self.is_last(file, version),
            None => false,
        }
    }

    // Does a transaction change a file whose version in it is not the last one.
    fn changes_outdated(&self, who: Option<Id>, file: Option<u64>) -> bool
        ensures { (deed : Deed) → listed file ≡ file_changed deed → result ≡ changes_outdated (files_of self.now) who deed }
    {
        match (who, file) {
            (Some(transaction), Some(file)) => self.is_outdated(transaction, file),
            _ => false,
        }
    }

    // Why a call is refused, if it is.
    pub(crate) fn check_act(&self, who: Option<Id>, act: &Act<'_>) -> Option<Refusal>
        requires { HasShortNames act.now }
        ensures { result ≡ refusal_of (conflicts (files_of self.now) who (act_of act.now)) (violates self.now.opens.opens who act.now) }
    {
        let outdated = self.changes_outdated(who, changed_file(act));
        self.reserve.check(&self.opens, who, act, outdated)
    }
}
