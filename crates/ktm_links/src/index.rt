// Maps from names to keys, by which the values of a list are found.
ghost use Rattle.std.specs.Prelude.{◌≡◌, IfNone, IfSome};
ghost use Rattle.ktm_links.specs.Indexed.{IsFirstUnder, IsNoneUnder};
ghost use Rattle.ktm_links.specs.Mapped.{Begins, IsNotBelow, key_under};

use crate::chains::Chains;
use crate::list::Key;
use crate::name::Name;

/// The key that stands under the name, where each value of the map is a key: not the map's own, which `find` gives.
pub fn key_under<K: Name>(map: &Chains<K, Key>, name: &[u8]) -> Option<Key>
    ensures { result ≡ key_under map.now.entries name.now }
{
    match map.find(name) {
        Some(own) => map.get(own).copied(),
        None => None,
    }
}

/// The key that stands under the first of the names that begin with these bytes, and not the map's own.
pub fn first_under<K: Name>(map: &Chains<K, Key>, prefix: &[u8]) -> Option<Key>
    ensures first { IfSome result (λ key. IsFirstUnder (Begins prefix.now) map.now.entries key) }
    ensures none { IfNone result (IsNoneUnder (Begins prefix.now) map.now.entries) }
{
    match map.first_with(prefix) {
        Some(own) => map.get(own).copied(),
        None => None,
    }
}

/// The key that stands under the first of the names that are not below this one, and not the map's own.
pub fn first_from<K: Name>(map: &Chains<K, Key>, name: &[u8]) -> Option<Key>
    ensures first { IfSome result (λ key. IsFirstUnder (λ q. IsNotBelow q name.now) map.now.entries key) }
    ensures none { IfNone result (IsNoneUnder (λ q. IsNotBelow q name.now) map.now.entries) }
{
    match map.first_from(name) {
        Some(own) => map.get(own).copied(),
        None => None,
    }
}
