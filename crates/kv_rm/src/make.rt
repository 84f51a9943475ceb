// What a transaction has set is made in the store, within its room.
ghost use Rattle.std.specs.Prelude.{◌≡◌, ◌+◌, ◌<◌, ◌≤◌, length};
ghost use Rattle.ktm_world.specs.Keys.{stored, stored_all};

use ktm_base::Bytes;
use ktm_counted::Steps;
use ktm_keyed::{Keyed, KeyedList};
use ktm_world::Setting;
use std::sync::ledger::Ledger;

// Makes a setting, which is a step.
fn make_one<L: Ledger>(store: &mut KeyedList<Bytes>, setting: Setting, steps: &mut Steps<L>)
    requires { 0 < store.old.spare }
    ensures items { store.new.items ≡ stored store.old.items setting }
    ensures in_place { store.new.spare + length store.new.items ≡ store.old.spare + length store.old.items }
    ensures room { store.old.spare ≤ store.new.spare + 1 }
    ensures counted { steps.new ≡ steps.old + 1 }
{
    steps.tick();
    let Keyed { key, value } = setting;
    match value {
        Some(value) => store.put(key, value).unwrap(),
        None => store.remove(key.as_slice()),
    }
}

/// Makes settings in the store, in order. It takes no memory. Each setting is a step.
pub(crate) fn make_all<L: Ledger>(
    store: &mut KeyedList<Bytes>,
    settings: Vec<Setting>,
    steps: &mut Steps<L>,
)
    requires { length settings.items ≤ store.old.spare }
    ensures items { store.new.items ≡ stored_all store.old.items settings.items }
    ensures in_place { store.new.spare + length store.new.items ≡ store.old.spare + length store.old.items }
    ensures counted { steps.new ≡ steps.old + length settings.items }
{
    for setting in settings {
        make_one(store, setting, steps);
    }
}
