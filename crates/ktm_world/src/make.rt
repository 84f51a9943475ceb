// Settings made in the store, within its room.
ghost use Rattle.std.specs.Prelude.{◌≡◌, ◌+◌, ◌<◌, ◌≤◌, length};
ghost use Rattle.ktm_world.specs.Keys.{stored, stored_all};

use crate::Setting;
use ktm_base::Bytes;
use ktm_keyed::{Keyed, KeyedList};

fn make_one(store: &mut KeyedList<Bytes>, setting: Setting)
    requires { 0 < store.old.spare }
    ensures items { store.new.items ≡ stored store.old.items setting }
    ensures in_place { store.new.spare + length store.new.items ≡ store.old.spare + length store.old.items }
    ensures room { store.old.spare ≤ store.new.spare + 1 }
{
    let Keyed { key, value } = setting;
    match value {
        Some(value) => store.put(key, value).unwrap(),
        None => store.remove(key.as_slice()),
    }
}

/// Makes settings in the store, in order. It takes no memory.
pub fn make_all(store: &mut KeyedList<Bytes>, settings: Vec<Setting>)
    requires { length settings.items ≤ store.old.spare }
    ensures items { store.new.items ≡ stored_all store.old.items settings.items }
    ensures in_place { store.new.spare + length store.new.items ≡ store.old.spare + length store.old.items }
{
    for setting in settings {
        make_one(store, setting);
    }
}
