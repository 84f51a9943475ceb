// Tests of a transaction that is read, by itself.
ghost use Rattle.std.specs.Prelude.{◌≡◌, ◌&&◌, true, IfOk, count_by};
ghost use Rattle.std.specs.List.{list_all};
ghost use Rattle.ktm_saved.specs.Tests.{against_of, has_good_changes, has_good_parts, is_good_alone, is_staged_well};
ghost use Rattle.txf_laws.specs.GoodState.{are_kept_changes, are_kept_settings, has_one_part_each, is_decided_well, is_done_well, is_held_well, is_ready_well};
ghost use Rattle.ktm_world.specs.Changes.{changes_apply, has_changes};
ghost use Rattle.ktm_world.specs.Durable.{are_recorded_changes, changes_of, is_new_in, is_part_of, is_sole};
ghost use Rattle.txf_laws.specs.Contents.{is_made_below, puts_some};
ghost use Rattle.txf_tree.specs.TreeState.{tree_of};

use crate::enlisted::{are_enlisted_well, are_enlistments_apart, is_drawn};
use crate::head::Head;
use ktm_base::NoMemory;
use ktm_waiting::{
    changes_of, has_part, has_part_of, has_undone_part, is_decided, is_held, is_part_of, is_ready,
    settings_of,
};
use ktm_world::{Change, Contents, DonePart, Part, Recorded, RecordedPart, are_good_settings};
use std::alloc::Global;
use txf_durable::{DurableFiles, FileNumbers, are_recorded_changes};
use txf_tree::{is_make, node_of};

fn is_ready_well(transaction: &Recorded) -> bool
    ensures { result ≡ is_ready_well transaction.now }
{
    !is_ready(transaction.stage) || (has_part(&transaction.parts) && transaction.superior.is_none())
}

fn is_held_well(transaction: &Recorded) -> bool
    ensures { result ≡ is_held_well transaction.now }
{
    !is_held(transaction.stage) || transaction.superior.is_some()
}

fn is_decided_well(transaction: &Recorded) -> bool
    ensures { result ≡ is_decided_well transaction.now }
{
    !is_decided(transaction.stage) || has_undone_part(&transaction.parts)
}

fn is_sole(part: &Part) -> bool
    ensures { result ≡ is_sole part.now }
{
    match part {
        Part::Enlistment { .. } => false,
        Part::Changes(_) | Part::Settings(_) => true,
    }
}

fn is_done_well(transaction: &Recorded, p: &RecordedPart) -> bool
    ensures { result ≡ is_done_well transaction.now p.now }
{
    !p.is_done || (is_decided(transaction.stage) && is_sole(&p.part))
}

fn are_done_well(transaction: &Recorded) -> bool
    ensures { result ≡ list_all (is_done_well transaction.now) transaction.now.parts }
{
    transaction
        .parts
        .iter()
        .all(|p| is_done_well(transaction, p))
}

// Is the transaction's Id drawn, and is the transaction as its stage asks.
fn is_staged_well(head: &Head<'_>, transaction: &Recorded) -> bool
    ensures { result ≡ is_staged_well (against_of head.now) transaction.now }
{
    is_drawn(head.boots, transaction.id)
        && is_ready_well(transaction)
        && is_held_well(transaction)
        && is_decided_well(transaction)
        && are_done_well(transaction)
}

fn count_parts(parts: &[RecordedPart], done: DonePart) -> usize
    ensures { result ≡ count_by (λ p. is_part_of done p.part) parts.now }
{
    parts.iter().filter(|p| is_part_of(done, &p.part)).count()
}

fn has_one_part_each(transaction: &Recorded) -> bool
    ensures { result ≡ has_one_part_each transaction.now }
{
    count_parts(&transaction.parts, DonePart::Files) <= 1
        && count_parts(&transaction.parts, DonePart::Keys) <= 1
}

// Has the transaction at most one part of the files, and one of the keys, and are its enlistments good ones that differ.
fn has_good_parts(head: &Head<'_>, transaction: &Recorded) -> bool
    ensures { result ≡ has_good_parts (against_of head.now) transaction.now }
{
    has_one_part_each(transaction)
        && are_enlisted_well(head, transaction)
        && are_enlistments_apart(transaction)
}

fn are_kept_settings(transaction: &Recorded) -> bool
    requires { has_one_part_each transaction.now ≡ true }
    ensures { result ≡ are_kept_settings transaction.now }
{
    let settings = settings_of(&transaction.parts);
    if is_decided(transaction.stage) {
        settings.is_empty()
    } else {
        !has_part_of(&transaction.parts, DonePart::Keys) || are_good_settings(settings)
    }
}

// Are the changes kept as the transaction's stage asks.
fn are_kept_changes(
    written: &mut FileNumbers,
    transaction: &Recorded,
    changes: &[Change],
) -> Result<bool, NoMemory>
    requires { changes.now ≡ changes_of transaction.now }
    ensures { IfOk result (λ are. are ≡ are_kept_changes transaction.now) }
{
    if is_decided(transaction.stage) {
        return Ok(changes.is_empty());
    }
    if !has_part_of(&transaction.parts, DonePart::Files) {
        return Ok(true);
    }
    written.reserve(changes.len())?;
    Ok(are_recorded_changes(written, changes))
}

fn puts_some(change: &Change) -> bool
    ensures { result ≡ puts_some change.now }
{
    let Change::Put { contents, .. } = change else {
        return true;
    };
    match contents {
        Contents::Whole(bytes) => !bytes.is_empty(),
        Contents::Paged { len, .. } => *len != 0,
    }
}

fn put_some(changes: &[Change]) -> bool
    ensures { result ≡ list_all puts_some changes.now }
{
    changes.iter().all(puts_some)
}

fn is_made_below(next_node: u64, change: &Change) -> bool
    ensures { result ≡ is_made_below next_node change.now }
{
    !is_make(change) || node_of(change) < next_node
}

fn are_made_below(next_node: u64, changes: &[Change]) -> bool
    ensures { result ≡ list_all (is_made_below next_node) changes.now }
{
    changes
        .iter()
        .all(|change| is_made_below(next_node, change))
}

// Do the changes, which have the form in which they are recorded if there are any, apply, and make no node that is there.
fn would_apply(alloc: Global, files: &DurableFiles, changes: &[Change]) -> Result<bool, NoMemory>
    requires { has_changes changes.now ≡ true → are_recorded_changes changes.now ≡ true }
    ensures { IfOk result (λ apply. apply ≡ (changes_apply (tree_of files.now.tree) changes.now && list_all (is_new_in (tree_of files.now.tree)) changes.now)) }
{
    if changes.is_empty() {
        return Ok(true);
    }
    files.would_apply(alloc, changes)
}

// Are the changes kept as the stage asks, and do they put something, make nodes below the next number that are new, and apply.
fn has_good_changes(
    alloc: Global,
    head: &Head<'_>,
    written: &mut FileNumbers,
    transaction: &Recorded,
) -> Result<bool, NoMemory>
    requires { has_one_part_each transaction.now ≡ true }
    ensures { IfOk result (λ good. good ≡ has_good_changes (against_of head.now) transaction.now) }
{
    let changes = changes_of(&transaction.parts);
    if !are_kept_changes(written, transaction, changes)?
        || !put_some(changes)
        || !are_made_below(head.files.next_node(), changes)
    {
        return Ok(false);
    }
    would_apply(alloc, head.files, changes)
}

/// Is the transaction, which has few enlistments, a good one by itself.
pub(crate) fn is_good_alone(
    alloc: Global,
    head: &Head<'_>,
    written: &mut FileNumbers,
    transaction: &Recorded,
) -> Result<bool, NoMemory>
    ensures { IfOk result (λ good. good ≡ is_good_alone (against_of head.now) transaction.now) }
{
    if !is_staged_well(head, transaction)
        || !has_good_parts(head, transaction)
        || !are_kept_settings(transaction)
    {
        return Ok(false);
    }
    has_good_changes(alloc, head, written, transaction)
}
