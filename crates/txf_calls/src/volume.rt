// What the calls ask of the files.
ghost use Rattle.std.specs.Prelude.{◌≡◌, ◌∷◌, [], IfOk, Some, true, is_some, map};
ghost use Rattle.std.specs.Option.{option_map};
ghost use Rattle.ktm_base.specs.declared.refusal.Refusal.TheVariants.{SharingViolation, TransactionalConflict};
ghost use Rattle.ktm_world.specs.Conflicts.{conflicts};
ghost use Rattle.ktm_world.specs.FileCalls.{entries, first_opening, listed};
ghost use Rattle.ktm_world.specs.FileOutcome.{lacks_disk, lacks_quota};
ghost use Rattle.ktm_world.specs.Files.{FilesNow, bytes_seen, tree_seen};
ghost use Rattle.ktm_world.specs.Outcome.{first_refusal};
ghost use Rattle.ktm_world.specs.Tree.{child_of, has_entries, is_at_or_below, is_there};
ghost use Rattle.txf_calls.specs.Fits.{IsFit};
ghost use Rattle.txf_opens.specs.Acts.{HasShortNames, act_of, violates};
ghost use Rattle.txf_calls.specs.Leads.{seen_of};

use crate::call::Room;
use crate::plan::Plan;
use crate::view::Seen;
use ktm_base::{Id, NoMemory, Refusal, TextList};
use ktm_content::PlacedRef;
use ktm_names::Pattern;
use std::alloc::Global;
use txf_opens::Act;

/// The files, as the calls ask for them. A caller is a transaction, or none for a plain call; it sees the committed files
/// with its own changes.
pub trait Volume {
    // The files now.
    ghost files: { Self → FilesNow };

    /// The node with this name, compared without case, in a directory.
    fn child(&self, who: Option<Id>, directory: u64, name: &[u8]) -> Option<Seen>
        ensures { result ≡ option_map seen_of (child_of (tree_seen (files self.now) who) directory name.now) };

    /// Has the directory entries.
    fn has_entries(&self, who: Option<Id>, directory: u64) -> bool
        ensures { result ≡ has_entries (tree_seen (files self.now) who) directory };

    /// Is a node that is seen, or the root, the other one, or below it.
    fn is_at_or_below(&self, who: Option<Id>, number: u64, other: u64) -> bool
        requires { is_there (tree_seen (files self.now) who) number ≡ true }
        ensures { result ≡ is_at_or_below (tree_seen (files self.now) who) number other };

    /// The entries of a directory that a pattern matches, as they are listed: by rising folded name, each directory's with a
    /// backslash behind it.
    fn found(
        &self,
        alloc: Global,
        who: Option<Id>,
        directory: u64,
        pattern: &Pattern,
    ) -> Result<TextList, NoMemory>
        ensures { IfOk result (λ names. names ≡ map listed (entries (tree_seen (files self.now) who) (Some directory) pattern.now.last)) };

    /// The bytes of a file that the caller sees, lent.
    fn bytes(&self, who: Option<Id>, file: u64) -> PlacedRef<'_>
        ensures { result ≡ bytes_seen (files self.now) who file };

    /// Does an open of the file make it the caller's first one: it is a transaction, and neither made the file nor opened it
    /// before.
    fn is_first_opening(&self, who: Option<Id>, file: u64) -> bool
        ensures { result ≡ is_some (first_opening (files self.now) who file) };

    /// The number of the next node.
    fn next_node(&self) -> u64
        ensures { result ≡ (files self.now).table.next_node };

    /// The number of the file that was opened last, or 0.
    fn last_open(&self) -> u32
        ensures { result ≡ (files self.now).table.last_open };

    /// Is what the caller does refused for what another transaction holds or has open, for a plain handle, or for the share
    /// mode of an open file.
    fn check(&self, who: Option<Id>, act: Act<'_>) -> Option<Refusal>
        requires { HasShortNames act }
        ensures { result ≡ first_refusal ((conflicts (files self.now) who (act_of act.entry), TransactionalConflict) ∷ (violates (files self.now).table.opens who act.entry, SharingViolation) ∷ []) };

    /// Would a quota be passed: changes that wait, handles, the numbers of open files and nodes.
    fn lacks_quota(&self, who: Option<Id>, plan: &Plan, room: &Room) -> bool
        ensures { result ≡ lacks_quota (files self.now) room.now who plan.now };

    /// Would the disk be too full: more units or nodes than the image has units.
    fn lacks_disk(&self, who: Option<Id>, plan: &Plan, room: &Room) -> bool
        requires { IsFit (files self.now) who plan.now }
        ensures { result ≡ lacks_disk (files self.now) room.now who plan.now };
}
