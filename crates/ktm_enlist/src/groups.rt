// The groups of all transactions that have enlistments, by the transactions' rising Ids.
ghost use Rattle.std.specs.Prelude.{◌≡◌, ◌≤◌, ◌<◌, ◌+◌, MatchOption, MatchResult, true, vec_capacity, vec_len};
ghost use Rattle.ktm_manager.specs.Rising.{are_rising, id_order, IsNowhere};
ghost use Rattle.ktm_enlist.specs.Standing.{nothing, standing_of};
ghost use Rattle.ktm_enlist.specs.Groups.{group_id, regrouped_all, HasBegun, HasJoined, IsGap, IsGroupOf, IsPlace, MayRegroupAll};

use crate::group::Group;
use crate::standing::Standing;
use ktm_base::Id;
use ktm_manager::order_of;
use ktm_phase::Enlistment;
use std::cmp::Ordering;

// How the group's transaction stands to this one.
fn order_from(g: &Group, transaction: Id) -> Ordering
    ensures { result ≡ id_order g.now.transaction transaction }
{
    order_of(g.transaction, transaction)
}

// Where the transaction's group stands, by halves, or where it would stand.
fn search(groups: &[Group], transaction: Id) -> Result<usize, usize>
    requires { are_rising group_id groups.now ≡ true }
    ensures { MatchResult result (IsPlace groups.now transaction) (IsGap groups.now transaction) }
{
    groups.binary_search_by(|g| order_from(g, transaction))
}

/// The transaction's group.
pub(crate) fn group_in(groups: &[Group], transaction: Id) -> Option<Group>
    requires { are_rising group_id groups.now ≡ true }
    ensures { MatchOption result (IsNowhere group_id groups.now transaction) (IsGroupOf groups.now transaction) }
{
    match search(groups, transaction) {
        Ok(at) => Some(groups[at]),
        Err(_) => None,
    }
}

/// One enlistment of the transaction counted so, and counts so from now on.
pub(crate) fn regroup(groups: &mut [Group], transaction: Id, was: Standing, is: Standing)
    requires rising { are_rising group_id groups.old ≡ true }
    requires may { MayRegroupAll groups.old transaction was is }
    ensures { groups.new ≡ regrouped_all transaction was is groups.old }
{
    if was == is {
        return;
    }
    match search(groups, transaction) {
        Ok(at) => groups[at] = groups[at].regrouped(was, is),
        Err(_) => {}
    }
}

/// One enlistment more, at this place. It takes no memory. The answer is the place of the transaction's last enlistment before
/// it.
pub(crate) fn join(groups: &mut Vec<Group>, e: &Enlistment, place: u32) -> Option<u32>
    requires rising { are_rising group_id groups.old.items ≡ true }
    requires room { vec_len groups.old < vec_capacity groups.old }
    requires may { MayRegroupAll groups.old.items e.now.transaction nothing (standing_of e.now) }
    ensures groups { MatchOption result (HasBegun e.now place groups.old.items groups.new.items) (HasJoined e.now place groups.old.items groups.new.items) }
    ensures room { vec_capacity groups.old + vec_len groups.new ≤ vec_capacity groups.new + vec_len groups.old + 1 }
{
    match search(groups, e.transaction) {
        Ok(at) => {
            let group = groups[at];
            groups[at] = group.joined(e, place);
            Some(group.last)
        }
        Err(gap) => {
            let group = Group::new(e.transaction, place).joined(e, place);
            groups.insert(gap, group).unwrap();
            None
        }
    }
}
