// The keys that are seen, out of those that are stored and those that are set, with no copy of the values.
ghost use Rattle.std.specs.Prelude.{◌≡◌, ◌++◌, [], true, IfOk, OnOk};
ghost use Rattle.ktm_keyed.specs.Keyed.{is_rising};
ghost use Rattle.ktm_world.specs.Keys.{stored, stored_all, keys_of};
ghost use Rattle.kv_rm.specs.Split.{IsSplit};

use ktm_base::{NoMemory, TextList};
use ktm_keyed::{Slot, slot_of};
use ktm_world::{Entry, Setting};
use std::alloc::Global;

// The entries whose keys come before this one, and those whose keys come after it.
fn split<'a>(store: &'a [Entry], key: &[u8]) -> (&'a [Entry], &'a [Entry])
    requires { is_rising store.now ≡ true }
    ensures { IsSplit store.now key.now result.0.now result.1.now }
{
    match slot_of(store, key) {
        Slot::Here(i) => (&store[..i], &store[i + 1..]),
        Slot::Free(i) => (&store[..i], &store[i..]),
    }
}

fn push_keys(keys: &mut TextList, store: &[Entry]) -> Result<(), NoMemory>
    ensures { OnOk result (keys.new ≡ keys.old ++ keys_of store.now) }
{
    for entry in store {
        keys.push(entry.key.as_slice())?;
    }
    Ok(())
}

// The key of a setting, where it gives it a value.
fn push_set(keys: &mut TextList, setting: &Setting) -> Result<(), NoMemory>
    ensures { OnOk result (keys.new ≡ keys.old ++ keys_of (stored [] setting.now)) }
{
    if setting.value.is_some() {
        keys.push(setting.key.as_slice())?;
    }
    Ok(())
}

/// The keys of a store, with settings made in it, by rising key.
pub fn keys_with(alloc: Global, store: &[Entry], settings: &[Setting]) -> Result<TextList, NoMemory>
    requires store { is_rising store.now ≡ true }
    requires settings { is_rising settings.now ≡ true }
    ensures { IfOk result (λ keys. keys ≡ keys_of (stored_all store.now settings.now)) }
{
    let mut keys = TextList::new(alloc);
    let mut rest = store;
    for setting in settings {
        let (before, after) = split(rest, setting.key.as_slice());
        push_keys(&mut keys, before)?;
        push_set(&mut keys, setting)?;
        rest = after;
    }
    push_keys(&mut keys, rest)?;
    Ok(keys)
}
