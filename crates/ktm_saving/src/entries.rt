// The committed keys.
ghost use Rattle.std.specs.Prelude.{◌≡◌, ◌+◌, ◌≤◌, sum_by, true, vec_capacity, vec_len};
ghost use Rattle.ktm_keyed.specs.Keyed.{is_rising};
ghost use Rattle.ktm_snapshot.specs.Sizes.{entry_size};
ghost use Rattle.ktm_snapshot.specs.StateGrammar.{AreEntriesOf, IsEntryOf};
ghost use Rattle.ktm_saving.specs.Spellable.{AreSpellable, IsSpellableEntry};
ghost use Rattle.ktm_saving.specs.Writes.{Writes};

use ktm_codec::put_u32;
use ktm_snapshot::{ShownEntry, law_of_writing, put_entry};
use ktm_world::Entry;

fn write_entry(entry: &Entry, out: &mut Vec<u8>)
    requires spelled { IsSpellableEntry entry.now }
    requires room { vec_len out.old + entry_size entry.now ≤ vec_capacity out.old }
    ensures { Writes (IsEntryOf entry.now) (entry_size entry.now) out.old out.new }
{
    let entry = ShownEntry {
        key: entry.key.as_slice(),
        value: entry.value.as_slice(),
    };
    put_entry(out, entry);
}

/// Writes the keys with their values, by rising key, behind their count. It takes no memory.
pub(crate) fn write_entries(store: &[Entry], out: &mut Vec<u8>)
    requires spelled { AreSpellable IsSpellableEntry store.now }
    requires rise { is_rising store.now ≡ true }
    requires room { vec_len out.old + (4 + sum_by entry_size store.now) ≤ vec_capacity out.old }
    ensures { Writes (AreEntriesOf store.now) (4 + sum_by entry_size store.now) out.old out.new }
{
    law_of_writing();
    put_u32(out, store.len() as u32);
    for entry in store {
        write_entry(entry, out);
    }
}
