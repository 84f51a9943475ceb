// What a change adds to the units of its file, and takes from them.
ghost use Rattle.std.specs.Prelude.{◌≡◌, ◌<◌, ◌+◌, ◌/◌, ◌^◌, ℕ, List, length};
ghost use Rattle.txf_volume.specs.Uses.{ends, gain, loss};

use ktm_world::Change;
use txf_tree::{bytes_in, changes_bytes, is_drop};

// Does a change end what its file was.
fn ends(change: &Change) -> bool
    ensures { result ≡ ends change.now }
{
    changes_bytes(change) || is_drop(change)
}

/// The units of so many bytes.
pub(crate) fn units_in(len: u128) -> u128
    requires { len < 2 ^ 66 }
    ensures units { result ≡ (len + 4095) / 4096 }
    ensures few { result < 2 ^ 66 }
{
    (len + 4095) / 4096
}

/// The units that a change gives its file, which had so many bytes.
pub(crate) fn gain(size: u64, change: &Change) -> u128
    ensures gain { (bytes : List ℕ) → size ≡ length bytes → result ≡ gain bytes change.now }
    ensures few { result < 2 ^ 66 }
{
    match change {
        Change::Put {
            offset,
            contents,
            ..
        } => {
            let end = *offset as u128 + bytes_in(contents).len() as u128;
            units_in(end.max(size as u128))
        }
        Change::Cut { size: cut, .. } => units_in(*cut as u128),
        _ => 0,
    }
}

/// The units that so many bytes had, where the change ends them.
pub(crate) fn loss(size: u64, change: &Change) -> u128
    ensures loss { (bytes : List ℕ) → size ≡ length bytes → result ≡ loss bytes change.now }
    ensures few { result < 2 ^ 66 }
{
    if ends(change) {
        units_in(size as u128)
    } else {
        0
    }
}
