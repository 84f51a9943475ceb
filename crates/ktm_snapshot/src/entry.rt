// Committed keys.
ghost use Rattle.std.specs.Prelude.{◌≡◌, ◌+◌, ◌<◌, ◌≤◌, ◌^◌, length, option_map, vec_len, vec_capacity};
ghost use Rattle.ktm_codec.specs.Spans.{Adds, Reads};
ghost use Rattle.ktm_world.specs.Values.{IsText};
ghost use Rattle.ktm_snapshot.specs.Shown.{entry_of};
ghost use Rattle.ktm_snapshot.specs.Sizes.{entry_size};
ghost use Rattle.ktm_snapshot.specs.StateGrammar.{IsEntryOf};

use ktm_codec::{put_text, put_value, text_at, value_at};
use ktm_event::is_text;

/// A committed key and its value, which are shown where they stand.
#[derive(Clone, Copy)]
pub struct ShownEntry<'a> {
    pub key: &'a [u8],
    pub value: &'a [u8],
}

/// The key with its value at a place, shown where it stands, and the place behind it.
pub fn entry_at(bytes: &[u8], at: usize) -> Option<(ShownEntry<'_>, usize)>
    ensures { Reads IsEntryOf bytes.now at (option_map (λ read. (entry_of read.0, read.1)) result) }
{
    let (key, after) = text_at(bytes, at)?;
    let (value, end) = value_at(bytes, after)?;
    if !is_text(key) {
        return None;
    }
    Some((ShownEntry { key, value }, end))
}

/// Writes the key with its value at the end. It takes no memory.
pub fn put_entry(out: &mut Vec<u8>, entry: ShownEntry<'_>)
    requires text { IsText entry.key.now }
    requires key { length entry.key.now < 2 ^ 8 }
    requires value { length entry.value.now < 2 ^ 16 }
    requires room { vec_len out.old + entry_size (entry_of entry) ≤ vec_capacity out.old }
    ensures adds { Adds (IsEntryOf (entry_of entry.entry)) out.old.items out.new.items }
    ensures len { vec_len out.new ≡ vec_len out.old + entry_size (entry_of entry.entry) }
    ensures room { vec_capacity out.old ≤ vec_capacity out.new }
{
    put_text(out, entry.key);
    put_value(out, entry.value);
}
