// The form in which a transaction records its changes.
ghost use Rattle.std.specs.Prelude.{◌≡◌, ◌≤◌, ◌++◌, None, true, length};
ghost use Rattle.std.specs.List.{list_all, position};
ghost use Rattle.ktm_world.specs.Changes.{changes_bytes};
ghost use Rattle.ktm_world.specs.Durable.{are_final_bytes, are_recorded_changes, gives_bytes};
ghost use Rattle.txf_durable.specs.Numbers.{AreNumbersRising};
ghost use Rattle.txf_durable.specs.Recorded.{are_names, begins_with, begins_with_bytes, from_file};

use crate::numbers::FileNumbers;
use crate::written::gather_written;
use ktm_world::Change;
use txf_tree::{changes_bytes, node_of};

// Where the first change of bytes is.
fn first_bytes(changes: &[Change]) -> Option<usize>
    ensures { result ≡ position changes_bytes changes.now }
{
    changes.iter().position(|change| changes_bytes(change))
}

// The changes of names that come first, and the rest, which begins with bytes.
pub(crate) fn split_at_bytes(changes: &[Change]) -> (&[Change], &[Change])
    ensures whole { result.0.now ++ result.1.now ≡ changes.now }
    ensures names { are_names result.0.now ≡ true }
    ensures bytes { begins_with_bytes result.1.now ≡ true }
{
    let names = first_bytes(changes).unwrap_or(changes.len());
    changes.split_at(names)
}

// Are the changes the bytes of files by rising number, as transactions record them.
fn are_final_bytes(changes: &[Change]) -> bool
    ensures { result ≡ are_final_bytes 0 None changes.now }
{
    let mut least = 0;
    let mut cut = None;
    for change in changes {
        match change {
            Change::Cut { node, size, .. } if least <= u128::from(*node) && *size == 0 => {
                least = u128::from(*node) + 1;
                cut = Some(*node);
            }
            Change::Put { node, offset, .. } if cut == Some(*node) && *offset == 0 => {
                cut = None;
            }
            _ => return false,
        }
    }
    true
}

// The changes from the first one of a file whose number is not below this one.
fn from_file(changes: &[Change], file: u64) -> &[Change]
    ensures { result.now ≡ from_file changes.now file }
{
    for (index, change) in changes.iter().enumerate() {
        if file <= node_of(change) {
            return &changes[index..];
        }
    }
    &[]
}

// Is the first change of this file.
fn begins_with(changes: &[Change], file: u64) -> bool
    ensures { result ≡ begins_with changes.now file }
{
    match changes.first() {
        Some(change) => node_of(change) == file,
        None => false,
    }
}

// Have all of the files bytes there. Both lists are gone through once.
fn have_bytes(files: &[u64], bytes: &[Change]) -> bool
    requires files { AreNumbersRising files.now }
    requires bytes { are_final_bytes 0 None bytes.now ≡ true }
    ensures { result ≡ list_all (gives_bytes bytes.now) files.now }
{
    let mut rest = bytes;
    for file in files {
        rest = from_file(rest, *file);
        if !begins_with(rest, *file) {
            return false;
        }
    }
    true
}

/// Have the changes the form in which a transaction records them: some at least, their bytes last, and the bytes of each
/// file that they make and leave. The numbers of these files are gathered in room that is there, so it takes no memory.
pub fn are_recorded_changes(files: &mut FileNumbers, changes: &[Change]) -> bool
    requires { length changes.now ≤ files.old.room }
    ensures recorded { result ≡ are_recorded_changes changes.now }
    ensures room { files.new.room ≡ files.old.room }
{
    if changes.is_empty() {
        return false;
    }
    let (names, bytes) = split_at_bytes(changes);
    if !are_final_bytes(bytes) {
        return false;
    }
    gather_written(files, names);
    have_bytes(files.as_slice(), bytes)
}
