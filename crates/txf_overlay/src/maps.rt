// Values under names, each put in place of what stands there.
ghost use Rattle.std.specs.Prelude.{◌≡◌, ◌≢◌, ◌<◌, ◌≤◌, ◌+◌, ℕ, List, Some};
ghost use Rattle.std.specs.Option.{option_copied};
ghost use Rattle.txf_overlay.specs.Maps.{under, IsSet};

use ktm_links::{Chains, Name};

// The value under the name.
pub(crate) fn get<'a, K: Name, T>(map: &'a Chains<K, T>, name: &[u8]) -> Option<&'a T>
    ensures { option_copied result ≡ under map.now.entries name.now }
{
    match map.find(name) {
        Some(key) => map.get(key),
        None => None,
    }
}

// Puts a value under the name, in place of what is there, and takes no memory.
pub(crate) fn set<K: Name, T: Drop>(map: &mut Chains<K, T>, name: K, value: T)
    requires { 0 < map.old.spare }
    ensures set { IsSet map.old.entries map.new.entries (K.bytes name) value }
    ensures under { under map.new.entries (K.bytes name) ≡ Some value }
    ensures others { (q : List ℕ) → q ≢ K.bytes name → under map.new.entries q ≡ under map.old.entries q }
    ensures spare { map.old.spare ≤ map.new.spare + 1 }
{
    map.remove(name.as_slice());
    map.insert(name, value);
}
