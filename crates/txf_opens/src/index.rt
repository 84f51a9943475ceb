// Maps from names to the keys of open files.
ghost use Rattle.std.specs.Prelude.{◌≡◌, ◌<◌, ◌≤◌, ◌+◌, None};
ghost use Rattle.std.specs.Bool.{MatchBool};
ghost use Rattle.ktm_links.specs.Indexed.{IsNoneUnder};
ghost use Rattle.ktm_links.specs.Mapped.{Begins, key_under};
ghost use Rattle.txf_opens.specs.Indexed.{Adds, HasUnder, Takes};

use ktm_links::{Chains, Key, Name, first_under};

/// Does a name begin with these bytes.
pub(crate) fn has_under<K: Name>(map: &Chains<K, Key>, prefix: &[u8]) -> bool
    ensures { MatchBool result (HasUnder (Begins prefix.now) map.now.entries) (IsNoneUnder (Begins prefix.now) map.now.entries) }
{
    first_under(map, prefix).is_some()
}

/// Puts a key under a name that is free, where this is so.
pub(crate) fn add<K: Name>(map: &mut Chains<K, Key>, is_so: bool, name: K, key: Key)
    requires spare { 0 < map.old.spare }
    requires free { key_under map.old.entries (K.bytes name) ≡ None }
    ensures adds { Adds is_so (K.bytes name) key map.old.entries map.new.entries }
    ensures spare { map.old.spare ≤ map.new.spare + 1 }
{
    if is_so {
        map.insert(name, key);
    }
}

/// Takes the key under the name out, if there is one.
pub(crate) fn take<K: Name>(map: &mut Chains<K, Key>, name: &[u8])
    ensures takes { Takes name.now map.old.entries map.new.entries }
    ensures spare { map.old.spare ≤ map.new.spare }
{
    map.remove(name);
}
