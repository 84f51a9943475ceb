// The entries of a map, one after another.
ghost use Rattle.std.specs.Prelude.{◌≡◌, ◌++◌, ◌∷◌, [], IfNone, is_some, option_to_list, true};
ghost use Rattle.std.specs.Option.{option_map};
ghost use Rattle.ktm_links.specs.Items.{value_at};
ghost use Rattle.ktm_links.specs.Order.{entries_of, ArePresent};
ghost use Rattle.ktm_links.specs.Walked.{entry_seen};

use crate::keys::Keys;
use crate::list::{Key, List};
use crate::name::Name;
use crate::named::Named;
use std::marker::Model;

/// An entry of a map: its name, the key of its value, and the value.
#[derive(Drop)]
pub struct EntryRef<'a, T> {
    pub name: &'a [u8],
    pub key: Key,
    pub value: &'a T,
}

/// The entries of a map that are left, by rising name. Each next one is found without a search.
#[derive(Drop)]
pub struct Walk<'a, K: Name, T> {
    values: &'a List<Named<K, T>>,
    keys: Keys<'a>,
}

impl<'a, K: Name, T> Model for Walk<'a, K, T> {
    ghost use Rattle.std.specs.Prelude.{List};
    ghost use Rattle.std.specs.Coded.{coded_list};
    ghost use Rattle.ktm_links.specs.Mapped.{NamedItem, named_item_code};

    ghost Value = { List (NamedItem T) };

    ghost coded = { coded_list (named_item_code T.code) };

    ghost use Rattle.ktm_links.specs.Order.{entries_of, ArePresent};

    ghost view = { λ w. entries_of w.values.now.items w.keys };

    ghost invariant = { λ w. ArePresent w.values.now.items w.keys };
}

// The entry of a key that names a value.
fn entry_of<'a, K: Name, T>(values: &'a List<Named<K, T>>, key: Key) -> EntryRef<'a, T>
    requires { is_some (value_at values.now.items key) ≡ true }
    ensures { entries_of values.now.items (key ∷ []) ≡ entry_seen result ∷ [] }
{
    match values.get(key) {
        Some(named) => EntryRef {
            name: named.name(),
            key,
            value: named.value(),
        },
        None => unreachable!(),
    }
}

impl<'a, K: Name, T> Walk<'a, K, T> {
    pub(crate) fn new(values: &'a List<Named<K, T>>, keys: Keys<'a>) -> Walk<'a, K, T>
        requires { ArePresent values.now.items keys }
        ensures { result ≡ entries_of values.now.items keys.entry }
    {
        Walk { values, keys }
    }

    /// The next entry, if one is left.
    pub fn next(&mut self) -> Option<EntryRef<'a, T>>
        ensures first { self.old ≡ option_to_list (option_map entry_seen result) ++ self.new }
        ensures none { IfNone result (self.old ≡ []) }
    {
        match self.keys.next() {
            Some(key) => Some(entry_of(self.values, key)),
            None => None,
        }
    }
}
