// How much is taken of what is limited.
ghost use Rattle.std.specs.Prelude.{◌≡◌, ℕ, ◌-◌, ◌^◌, ◌<◌, ◌≤◌, not, true, count_by, is_none, is_some, length, IfSome, IfNone, false};
ghost use Rattle.std.specs.List.{list_all};
ghost use Rattle.txf_laws.specs.GoodState.{has_one_part_each};
ghost use Rattle.ktm_world.specs.Changes.{changes_apply, changes_bytes, has_changes, is_make, nodes_made};
ghost use Rattle.ktm_world.specs.Durable.{are_recorded_changes, changes_in, changes_of, enlistments_in, enlistments_of, is_new_in, is_sole, superior_ids};
ghost use Rattle.ktm_world.specs.Tree.{Tree};
ghost use Rattle.ktm_waiting.specs.Totals.{amounts_in, drops_made, enlistments_alone};
ghost use Rattle.ktm_waiting.specs.Waiting.{amounts_of, fits_in, limits, minus, plus, units_waiting_in};
ghost use Rattle.txf_tree.specs.TreeState.{tree_of};

use crate::parts::{changes_in, changes_of, is_decided, settings_in, settings_of};
use ktm_base::MOST_LIVE;
use ktm_world::{Change, Part, Recorded, RecordedPart, Setting, Superior};
use txf_durable::{DurableFiles, name_changes, units_given};
use txf_tree::{is_drop, is_make, node_of};

/// How much there is of what is limited: the units of files, nodes, keys, changes that wait, and enlistments.
#[derive(Clone, Copy)]
pub struct Amounts {
    pub units: u128,
    pub nodes: u128,
    pub keys: u128,
    pub changes: u128,
    pub enlistments: u128,
}

fn count_set(settings: &[Setting]) -> usize
    ensures { result ≡ count_by (λ setting. is_some setting.value) settings.now }
{
    settings.iter().filter(|s| s.value.is_some()).count()
}

fn count_unset(settings: &[Setting]) -> usize
    ensures { result ≡ count_by (λ setting. is_none setting.value) settings.now }
{
    settings.len() - count_set(settings)
}

/// Is the first within the second.
pub fn fits_in(a: &Amounts, b: &Amounts) -> bool
    ensures { result ≡ fits_in a.now b.now }
{
    a.units <= b.units
        && a.nodes <= b.nodes
        && a.keys <= b.keys
        && a.changes <= b.changes
        && a.enlistments <= b.enlistments
}

// The first without the second, which is within it.
pub(crate) fn minus(a: Amounts, b: Amounts) -> Amounts
    requires { fits_in b a ≡ true }
    ensures { result ≡ minus a b }
{
    Amounts {
        units: a.units - b.units,
        nodes: a.nodes - b.nodes,
        keys: a.keys - b.keys,
        changes: a.changes - b.changes,
        enlistments: a.enlistments - b.enlistments,
    }
}

/// What is left of the first without the second, if that is within it.
pub fn without(a: Amounts, b: Amounts) -> Option<Amounts>
    ensures some { IfSome result (λ left. (fits_in b a ≡ true) × (left ≡ minus a b)) }
    ensures none { IfNone result (fits_in b a ≡ false) }
{
    if !fits_in(&b, &a) {
        return None;
    }
    Some(minus(a, b))
}

// Both together, or nothing where no image has room for them.
pub(crate) fn plus(a: Amounts, b: Amounts) -> Option<Amounts>
    ensures some { IfSome result (λ both. both ≡ plus a b) }
    ensures none { IfNone result ((units : ℕ) → units < 2 ^ 32 → fits_in (plus a b) (limits units) ≡ false) }
{
    let units = a.units.checked_add(b.units)?;
    let nodes = a.nodes.checked_add(b.nodes)?;
    let keys = a.keys.checked_add(b.keys)?;
    let changes = a.changes.checked_add(b.changes)?;
    let enlistments = a.enlistments.checked_add(b.enlistments)?;
    Some(Amounts {
        units,
        nodes,
        keys,
        changes,
        enlistments,
    })
}

// So many enlistments, and nothing else.
pub(crate) fn enlistments_alone(enlistments: u128) -> Amounts
    ensures { result ≡ enlistments_alone enlistments }
{
    Amounts {
        units: 0,
        nodes: 0,
        keys: 0,
        changes: 0,
        enlistments,
    }
}

// The first without the second, which is within it, but for so many of its enlistments.
pub(crate) fn but_for(taken: Amounts, before: Amounts, enlistments: u128) -> Amounts
    requires within { fits_in before taken ≡ true }
    requires few { enlistments ≤ before.enlistments }
    ensures { result ≡ plus (enlistments_alone enlistments) (minus taken before) }
{
    let rest = minus(taken, before);
    Amounts {
        units: rest.units,
        nodes: rest.nodes,
        keys: rest.keys,
        changes: rest.changes,
        enlistments: enlistments + rest.enlistments,
    }
}

/// What an image of so many units has room for.
pub fn limits(units: u32) -> Amounts
    ensures { result ≡ limits units }
{
    let most = u128::from(units);
    Amounts {
        units: most,
        nodes: most,
        keys: most,
        changes: most,
        enlistments: MOST_LIVE as u128,
    }
}

// How many units the files have that changes write, if there are any, once they are made.
fn units_waiting(changes: &[Change]) -> u128
    requires { has_changes changes.now ≡ true → are_recorded_changes changes.now ≡ true }
    ensures { (tree : Tree) → changes_apply tree changes.now ≡ true → result ≡ units_waiting_in tree changes.now }
{
    if changes.is_empty() {
        0
    } else {
        units_given(changes)
    }
}

// Does the change drop a node that is not committed, since an earlier one made it.
fn drops_made(files: &DurableFiles, change: &Change) -> bool
    ensures { result ≡ drops_made (tree_of files.now.tree) change.now }
{
    is_drop(change) && files.tree().node(node_of(change)).is_none()
}

// How many of the changes make a node.
fn count_makes(changes: &[Change]) -> usize
    ensures { result ≡ count_by is_make changes.now }
{
    changes.iter().filter(|change| is_make(change)).count()
}

// How many of them drop one that an earlier one made.
fn count_drops(files: &DurableFiles, changes: &[Change]) -> usize
    ensures { result ≡ count_by (drops_made (tree_of files.now.tree)) changes.now }
{
    changes
        .iter()
        .filter(|change| drops_made(files, change))
        .count()
}

// How many nodes the changes make and leave: as many as they make, but for those of them that they drop.
fn nodes_made(files: &DurableFiles, changes: &[Change]) -> usize
    requires apply { changes_apply (tree_of files.now.tree) changes.now ≡ true }
    requires new { list_all (is_new_in (tree_of files.now.tree)) changes.now ≡ true }
    ensures { result ≡ nodes_made changes.now }
{
    count_makes(changes) - count_drops(files, changes)
}

fn is_enlistment(part: &Part) -> bool
    ensures { result ≡ not (is_sole part.now) }
{
    match part {
        Part::Enlistment { .. } => true,
        Part::Changes(_) | Part::Settings(_) => false,
    }
}

fn count_enlistments(parts: &[RecordedPart]) -> usize
    ensures { result ≡ count_by (λ p. not (is_sole p.part)) parts.now }
{
    let mut many = 0;
    for p in parts {
        if is_enlistment(&p.part) {
            many += 1;
        }
    }
    many
}

fn count_superiors(superior: &Option<Superior>) -> u128
    ensures count { result ≡ length (superior_ids superior.now) }
    ensures few { result ≤ 1 }
{
    match superior {
        Some(_) => 1,
        None => 0,
    }
}

// How many enlistments a superior adds to a transaction.
pub(crate) fn added_by_superior(transaction: &Recorded) -> u128
    ensures { result ≡ 1 - length (superior_ids transaction.now.superior) }
{
    1 - count_superiors(&transaction.superior)
}

/// How many enlistments a transaction has, the superior's included.
pub fn enlistments_of(transaction: &Recorded) -> u128
    ensures { result ≡ length (enlistments_of transaction.now) }
{
    count_superiors(&transaction.superior) + count_enlistments(&transaction.parts) as u128
}

// What a transaction takes.
pub(crate) fn amounts_of(files: &DurableFiles, transaction: &Recorded) -> Amounts
    requires parts { has_one_part_each transaction.now ≡ true }
    requires form { has_changes (changes_of transaction.now) ≡ true → are_recorded_changes (changes_of transaction.now) ≡ true }
    requires apply { changes_apply (tree_of files.now.tree) (changes_of transaction.now) ≡ true }
    requires new { list_all (is_new_in (tree_of files.now.tree)) (changes_of transaction.now) ≡ true }
    ensures { (tree : Tree) → changes_apply tree (changes_of transaction.now) ≡ true → result ≡ amounts_of tree transaction.now }
{
    let enlistments = enlistments_of(transaction);
    if is_decided(transaction.stage) {
        return enlistments_alone(enlistments);
    }
    let changes = changes_of(&transaction.parts);
    let settings = settings_of(&transaction.parts);
    Amounts {
        units: units_waiting(changes),
        nodes: nodes_made(files, changes) as u128,
        keys: count_set(settings) as u128,
        changes: name_changes(changes) as u128 + count_unset(settings) as u128,
        enlistments,
    }
}

fn enlistments_in(part: &Part) -> u128
    ensures { result ≡ length (enlistments_in part.now) }
{
    match part {
        Part::Enlistment { .. } => 1,
        Part::Changes(_) | Part::Settings(_) => 0,
    }
}

// What a part of a transaction takes.
pub(crate) fn amounts_in(files: &DurableFiles, part: &Part) -> Amounts
    requires form { has_changes (changes_in part.now) ≡ true → are_recorded_changes (changes_in part.now) ≡ true }
    requires apply { changes_apply (tree_of files.now.tree) (changes_in part.now) ≡ true }
    requires new { list_all (is_new_in (tree_of files.now.tree)) (changes_in part.now) ≡ true }
    ensures { (tree : Tree) → changes_apply tree (changes_in part.now) ≡ true → result ≡ amounts_in tree part.now }
{
    let changes = changes_in(part);
    let settings = settings_in(part);
    Amounts {
        units: units_waiting(changes),
        nodes: nodes_made(files, changes) as u128,
        keys: count_set(settings) as u128,
        changes: name_changes(changes) as u128 + count_unset(settings) as u128,
        enlistments: enlistments_in(part),
    }
}
