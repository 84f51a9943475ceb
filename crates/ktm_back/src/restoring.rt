// What transactions in doubt changed and set, which is brought back.
ghost use Rattle.std.specs.Prelude.{◌≡◌, ◌≤◌, ◌∷◌, [], true, IfOk, OnOk, count_by, filter, length};
ghost use Rattle.std.specs.List.{flat_map, list_any};
ghost use Rattle.ktm_world.specs.declared.event.DonePart.TheVariants.{Files as OfFiles, Keys as OfKeys};
ghost use Rattle.ktm_world.specs.Durable.{changes_in, is_held, is_part_of, settings_in};
ghost use Rattle.txf_tree.specs.TreeState.{tree_of, versions_of};
ghost use Rattle.txf_volume.specs.Held.{files_of, tree_units};
ghost use Rattle.txf_volume.specs.Restoring.{CanBeRestored};
ghost use Rattle.ktm_back.specs.Restoring.{AreOfGoodState, CanBeSetAgain, CanHaveItsOwn, CanHaveTheirOwn, files_back, files_with_own, keys_back, keys_with_own, own_changes_of, own_if_changed, own_if_set, own_settings_of};

use crate::transactions::is_held;
use ktm_base::{Bytes, Id, NoMemory};
use ktm_keyed::KeyedList;
use ktm_limits::law_of_limits;
use ktm_world::{Part, Recorded, RecordedPart};
use kv_rm::KvRm;
use std::alloc::Global;
use txf_durable::FilesRead;
use txf_volume::Files;

/// The files and the keys of a machine that starts, with what transactions in doubt have of their own.
#[derive(Drop)]
pub struct Restored {
    pub files: Files,
    pub keys: KvRm,
}

// What the part has of changes or settings is the transaction's own again.
fn restore_part(
    files: &mut Files,
    keys: &mut KvRm,
    transaction: Id,
    part: Part,
) -> Result<(), NoMemory>
    requires changes { is_part_of OfFiles part ≡ true → CanBeRestored (files_of files.old) transaction (changes_in part) }
    requires settings { is_part_of OfKeys part ≡ true → CanBeSetAgain keys.old transaction (settings_in part) }
    ensures files { OnOk result (files_of files.new ≡ files_with_own (files_of files.old) (own_if_changed transaction (changes_in part))) }
    ensures keys { OnOk result (keys.new ≡ keys_with_own keys.old (own_if_set transaction (settings_in part))) }
{
    match part {
        Part::Changes(changes) => files.restore(transaction, changes.into_vec()),
        Part::Settings(settings) => keys.restore(transaction, settings.into_vec()),
        Part::Enlistment { .. } => Ok(()),
    }
}

// The changes and settings of all parts, of which one at most has changes, and one has settings, are the transaction's own again.
fn restore_parts(
    files: &mut Files,
    keys: &mut KvRm,
    transaction: Id,
    parts: Vec<RecordedPart>,
) -> Result<(), NoMemory>
    requires one_of_files { count_by (λ p. is_part_of OfFiles p.part) parts.items ≤ 1 }
    requires one_of_keys { count_by (λ p. is_part_of OfKeys p.part) parts.items ≤ 1 }
    requires changes { list_any (λ p. is_part_of OfFiles p.part) parts.items ≡ true → CanBeRestored (files_of files.old) transaction (flat_map (λ p. changes_in p.part) parts.items) }
    requires settings { list_any (λ p. is_part_of OfKeys p.part) parts.items ≡ true → CanBeSetAgain keys.old transaction (flat_map (λ p. settings_in p.part) parts.items) }
    ensures files { OnOk result (files_of files.new ≡ files_with_own (files_of files.old) (own_if_changed transaction (flat_map (λ p. changes_in p.part) parts.items))) }
    ensures keys { OnOk result (keys.new ≡ keys_with_own keys.old (own_if_set transaction (flat_map (λ p. settings_in p.part) parts.items))) }
{
    for p in parts {
        restore_part(files, keys, transaction, p.part)?;
    }
    Ok(())
}

// The changes and settings of a transaction are its own again, if it is in doubt.
fn restore_if_held(files: &mut Files, keys: &mut KvRm, t: Recorded) -> Result<(), NoMemory>
    requires { CanHaveItsOwn (files_of files.old) keys.old t }
    ensures files { OnOk result (files_of files.new ≡ files_with_own (files_of files.old) (own_changes_of (t ∷ []))) }
    ensures keys { OnOk result (keys.new ≡ keys_with_own keys.old (own_settings_of (t ∷ []))) }
{
    let Recorded {
        id,
        stage,
        parts,
        ..
    } = t;
    if !is_held(stage) {
        return Ok(());
    }
    restore_parts(files, keys, id, parts)
}

// The changes and settings of each transaction that is in doubt are its own again, in order.
fn restore_all(
    files: &mut Files,
    keys: &mut KvRm,
    transactions: Vec<Recorded>,
) -> Result<(), NoMemory>
    requires { CanHaveTheirOwn (files_of files.old) keys.old transactions.items }
    ensures files { OnOk result (files_of files.new ≡ files_with_own (files_of files.old) (own_changes_of transactions.items)) }
    ensures keys { OnOk result (keys.new ≡ keys_with_own keys.old (own_settings_of transactions.items)) }
{
    for t in transactions {
        restore_if_held(files, keys, t)?;
    }
    Ok(())
}

/// What is committed, and what the transactions in doubt changed and set, which hold then what they name. It is moved out of
/// their parts, and nothing of it is copied.
pub fn restore(
    alloc: Global,
    committed: FilesRead,
    store: KeyedList<Bytes>,
    transactions: Vec<Recorded>,
) -> Result<Restored, NoMemory>
    requires rest { versions_of committed.tree ≡ [] }
    requires units { committed.units ≡ tree_units (tree_of committed.tree) }
    requires good { AreOfGoodState (tree_of committed.tree) committed.next_node store.items transactions.items }
    ensures files { IfOk result (λ back. files_of back.files ≡ files_back (tree_of committed.tree) committed.next_node transactions.items) }
    ensures keys { IfOk result (λ back. back.keys ≡ keys_back store.items transactions.items) }
{
    law_of_limits();
    let FilesRead {
        tree,
        units,
        next_node,
    } = committed;
    let mut files = Files::with_tree(alloc, tree, units, next_node);
    let mut keys = KvRm::with_store(alloc, store);
    match restore_all(&mut files, &mut keys, transactions) {
        Ok(()) => Ok(Restored { files, keys }),
        Err(NoMemory) => {
            drop(files);
            drop(keys);
            Err(NoMemory)
        }
    }
}

/// How many transactions are in doubt.
pub fn count_in_doubt(transactions: &[Recorded]) -> usize
    ensures { result ≡ length (filter (λ t. is_held t.stage) transactions.now) }
{
    transactions.iter().filter(|t| is_held(t.stage)).count()
}
