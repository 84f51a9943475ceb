// How much there is of some changes.
ghost use Rattle.std.specs.Prelude.{◌≡◌, ◌≤◌, ◌^◌, not, true, count_by, sum_by};
ghost use Rattle.ktm_world.specs.Changes.{changed_all, changes_apply, changes_bytes};
ghost use Rattle.ktm_world.specs.Committed.{written_files};
ghost use Rattle.ktm_world.specs.Durable.{are_recorded_changes};
ghost use Rattle.ktm_world.specs.Tree.{Tree, bytes_of, units_of};
ghost use Rattle.txf_durable.specs.Recorded.{units_put};

use ktm_base::UNIT_BYTES;
use ktm_world::Change;
use txf_tree::{bytes_in, changes_bytes};

/// How many of the changes make, move or drop a node.
pub fn name_changes(changes: &[Change]) -> usize
    ensures { result ≡ count_by (λ change. not (changes_bytes change)) changes.now }
{
    changes
        .iter()
        .filter(|change| !changes_bytes(change))
        .count()
}

// How many units the bytes take that a change puts.
fn units_put(change: &Change) -> u64
    ensures units { result ≡ units_put change.now }
    ensures few { result ≤ 2 ^ 52 }
{
    match change {
        Change::Put { contents, .. } => bytes_in(contents).len().div_ceil(UNIT_BYTES),
        _ => 0,
    }
}

/// How many units the files would have that recorded changes write, once they were made. The bytes are all that they have then.
pub fn units_given(changes: &[Change]) -> u128
    requires { are_recorded_changes changes.now ≡ true }
    ensures { (tree : Tree) → changes_apply tree changes.now ≡ true → result ≡ sum_by (λ file. units_of (bytes_of (changed_all tree changes.now) file)) (written_files changes.now) }
{
    let mut units = 0;
    for change in changes {
        units += u128::from(units_put(change));
    }
    units
}
