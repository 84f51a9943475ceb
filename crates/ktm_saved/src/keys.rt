// The committed keys of a snapshot.
ghost use Rattle.std.specs.Prelude.{◌≡◌, ◌++◌, ◌∷◌, [], Ok, IfOk, option_map, true};
ghost use Rattle.ktm_keyed.specs.Keyed.{is_rising};
ghost use Rattle.ktm_saved.specs.Reading.{AreGoodKeys, ReadsGood, are_good_keys};
ghost use Rattle.ktm_snapshot.specs.Shown.{entry_of};
ghost use Rattle.ktm_snapshot.specs.StateGrammar.{AreEntriesOf};

use ktm_base::{Bytes, NoMemory, Text};
use ktm_codec::u32_at;
use ktm_keyed::{Keyed, KeyedList};
use ktm_snapshot::{ShownEntry, entry_at, is_key_before, law_of_order};
use ktm_world::{is_bad_key, is_bad_value};
use std::alloc::Global;

// Does a key come behind those before it.
fn comes_behind(keys: &[Keyed<Bytes>], entry: &ShownEntry) -> bool
    requires { is_rising keys.now ≡ true }
    ensures { result ≡ is_rising (keys.now ++ entry_of entry.now ∷ []) }
{
    law_of_order();
    match keys.last() {
        Some(last) => is_key_before(last.key.as_slice(), entry.key),
        None => true,
    }
}

// Puts a copy of a key with its value behind the others, if it may stand there, and tells whether it may.
fn add(alloc: Global, keys: &mut KeyedList<Bytes>, entry: &ShownEntry) -> Result<bool, NoMemory>
    requires { are_good_keys keys.old.items ≡ true }
    ensures good { IfOk result (λ good. good ≡ are_good_keys (keys.old.items ++ entry_of entry.now ∷ [])) }
    ensures added { result ≡ Ok true → keys.new.items ≡ keys.old.items ++ entry_of entry.now ∷ [] }
{
    let key = Text::new(entry.key.to_vec(alloc)?);
    let value = Bytes::new(entry.value.to_vec(alloc)?);
    if is_bad_key(&key) || is_bad_value(&value) || !comes_behind(keys.as_slice(), entry) {
        return Ok(false);
    }
    keys.put(key, value)?;
    Ok(true)
}

/// The committed keys that stand at a place of a snapshot, and the place behind them. None are there where no keys are spelled, or
/// where a key or a value is longer than it may be, or a key is empty.
pub(crate) fn read_keys(
    alloc: Global,
    bytes: &[u8],
    at: usize,
) -> Result<Option<(KeyedList<Bytes>, usize)>, NoMemory>
    ensures { IfOk result (λ read. ReadsGood AreEntriesOf AreGoodKeys bytes.now at (option_map (λ read. (read.0.items, read.1)) read)) }
{
    let Some((count, start)) = u32_at(bytes, at) else {
        return Ok(None);
    };
    let mut keys = KeyedList::new(alloc);
    let mut end = start;
    'keys: for _ in 0..count {
        let Some((entry, next)) = entry_at(bytes, end) else {
            return Ok(None);
        };
        if !add(alloc, &mut keys, &entry)? {
            return Ok(None);
        }
        end = next;
    }
    Ok(Some((keys, end)))
}
