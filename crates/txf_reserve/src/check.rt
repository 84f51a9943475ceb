// Whether a call meets what others hold.
ghost use Rattle.std.specs.Prelude.{◌≡◌, ◌≤◌, ◌&&◌, ◌||◌, Option, length};
ghost use Rattle.std.specs.List.{list_any};
ghost use Rattle.ktm_base.specs.declared.id.Id.{Id};
ghost use Rattle.ktm_world.specs.Conflicts.{changes_outdated, conflicts};
ghost use Rattle.ktm_world.specs.Files.{FilesNow};
ghost use Rattle.txf_opens.specs.Acts.{act_of, violates, HasShortNames, HaveShortNames};
ghost use Rattle.txf_reserve.specs.Acts.{listed, listed_place};
ghost use Rattle.txf_reserve.specs.Checks.{is_conflict, is_number_held, meets_another, overwrites_transacted, refusal_of, touches_plain};
ghost use Rattle.txf_reserve.specs.Parts.{is_node_met, is_place_met, meets_parts};
ghost use Rattle.txf_reserve.specs.ReserveState.{Keeps};

use crate::act::{Parts, parts_of};
use crate::reserve::Reserve;
use ktm_base::{Id, Refusal};
use txf_opens::{Act, Opens, Place};

// Does a transaction open or change a file that a plain handle may write.
fn touches_plain(opens: &Opens, who: Option<Id>, touched: Option<u64>) -> bool
    ensures { result ≡ touches_plain opens.now.opens who (listed touched) }
{
    match (who, touched) {
        (Some(_), Some(file)) => opens.has_plain_writer(file),
        (Some(_), None) => false,
        (None, _) => false,
    }
}

// Does a plain call write, empty or delete a file that a transaction has open.
fn overwrites_transacted(opens: &Opens, who: Option<Id>, overwritten: Option<u64>) -> bool
    ensures { result ≡ overwrites_transacted opens.now.opens who (listed overwritten) }
{
    match (who, overwritten) {
        (None, Some(file)) => opens.is_open_transacted(file),
        (None, None) => false,
        (Some(_), _) => false,
    }
}

// Does the call violate a share mode.
fn violates(opens: &Opens, who: Option<Id>, act: &Act) -> bool
    ensures { result ≡ violates opens.now.opens who act.now }
{
    match *act {
        Act::Open {
            file,
            access,
            truncates,
            share,
        } => opens.violates_sharing(who, file, access, truncates, share),
        Act::Delete { file, .. } => opens.is_open_in(who, file),
        Act::MoveFile { file, .. } => opens.is_open_in(who, file),
        Act::Make { .. } => false,
        Act::DropDirectory { .. } => false,
        Act::MoveDirectory { .. } => false,
    }
}

impl Reserve {
    // Does another transaction hold the file or directory, by a change or by having it open for writing.
    fn is_node_met(&self, opens: &Opens, who: Option<Id>, node: Option<u64>) -> bool
        ensures { result ≡ list_any (is_node_met self.now opens.now.opens who) (listed node) }
    {
        match node {
            Some(node) => self.is_node_held(who, node) || opens.is_written_by_other(who, node),
            None => false,
        }
    }

    // Does another transaction hold the name, or has it dropped the directory in which it is.
    fn is_place_met(&self, who: Option<Id>, place: Option<Place>) -> bool
        requires { HaveShortNames (listed_place place) }
        ensures { result ≡ list_any (is_place_met self.now who) (listed_place place.entry) }
    {
        match place {
            Some(place) => {
                self.is_place_held(who, place) || self.is_dropped(who, place.directory)
            }
            None => false,
        }
    }

    // Does another transaction hold the use of the directory.
    fn is_use_met(&self, who: Option<Id>, dropped: Option<u64>) -> bool
        ensures { result ≡ list_any (is_number_held who self.now.uses) (listed dropped) }
    {
        match dropped {
            Some(directory) => self.is_used(who, directory),
            None => false,
        }
    }

    // Do the parts of a call meet what another transaction holds.
    fn meets_parts(&self, opens: &Opens, who: Option<Id>, parts: &Parts) -> bool
        requires from { HaveShortNames (listed_place parts.now.from) }
        requires to { HaveShortNames (listed_place parts.now.to) }
        ensures { result ≡ meets_parts self.now opens.now.opens who parts.now }
    {
        self.is_node_met(opens, who, parts.node)
            || self.is_place_met(who, parts.from)
            || self.is_place_met(who, parts.to)
            || self.is_use_met(who, parts.dropped)
            || (parts.moves && self.is_moving(who))
    }

    /// Does the call meet what another transaction holds, by a change or by having a file open for writing.
    pub fn meets(&self, opens: &Opens, who: Option<Id>, act: &Act) -> bool
        requires { HasShortNames act.now }
        ensures { result ≡ meets_another self.now opens.now.opens who (act_of act.now) }
    {
        self.meets_parts(opens, who, &parts_of(act))
    }

    // Is a call with these parts refused for another transaction, or for plain handles.
    fn are_in_conflict(&self, opens: &Opens, who: Option<Id>, parts: &Parts, outdated: bool) -> bool
        requires from { HaveShortNames (listed_place parts.now.from) }
        requires to { HaveShortNames (listed_place parts.now.to) }
        ensures { result ≡ (meets_parts self.now opens.now.opens who parts.now || outdated || touches_plain opens.now.opens who (listed parts.now.touched) || overwrites_transacted opens.now.opens who (listed parts.now.overwritten)) }
    {
        self.meets_parts(opens, who, parts)
            || outdated
            || touches_plain(opens, who, parts.touched)
            || overwrites_transacted(opens, who, parts.overwritten)
    }

    // Is the call refused for another transaction, or for plain handles.
    fn is_conflict(&self, opens: &Opens, who: Option<Id>, act: &Act, outdated: bool) -> bool
        requires { HasShortNames act.now }
        ensures { result ≡ is_conflict self.now opens.now.opens who (act_of act.now) outdated }
    {
        self.are_in_conflict(opens, who, &parts_of(act), outdated)
    }

    /// Why a call is refused, if it is: `outdated` where the transaction changes a file whose version in it is not the last
    /// one, or another transaction holds what it changes, or plain handles and transactions are in each other's way, it
    /// conflicts; and else it may violate a share mode.
    pub fn check(
        &self,
        opens: &Opens,
        who: Option<Id>,
        act: &Act,
        outdated: bool,
    ) -> Option<Refusal>
        requires { HasShortNames act.now }
        ensures refusal { result ≡ refusal_of (is_conflict self.now opens.now.opens who (act_of act.now) outdated) (violates opens.now.opens who act.now) }
        ensures of_files { (files : FilesNow) → Keeps self.now files → files.table.opens ≡ opens.now.opens → outdated ≡ changes_outdated files who (act_of act.now) → result ≡ refusal_of (conflicts files who (act_of act.now)) (violates opens.now.opens who act.now) }
    {
        if self.is_conflict(opens, who, act, outdated) {
            return Some(Refusal::TransactionalConflict);
        }
        if violates(opens, who, act) {
            return Some(Refusal::SharingViolation);
        }
        None
    }
}
