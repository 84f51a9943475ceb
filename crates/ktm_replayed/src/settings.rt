// Settings that a transaction commits alone, which are tested and made where they lie in bytes.
ghost use Rattle.std.specs.Prelude.{◌≡◌, ◌&&◌, ◌≤◌, IfOk, IfSome, OnOk, length, option_map};
ghost use Rattle.ktm_codec.specs.Spans.{Reads};
ghost use Rattle.ktm_event.specs.Reading.{IsKeyOf};
ghost use Rattle.ktm_keyed.specs.Keyed.{comes_before};
ghost use Rattle.ktm_replayed.specs.Settings.{IsSingleAt, MadeUpTo};
ghost use Rattle.ktm_world.specs.EventGrammar.{IsSetTo, IsSettingOf};
ghost use Rattle.ktm_world.specs.Keys.{is_good_setting, stored};

use ktm_base::{Bytes, Id, MOST_KEY_BYTES, MOST_VALUE_BYTES, NoMemory, Text};
use ktm_codec::{text_at, u8_at, value_at};
use ktm_event::{is_text, read_id};
use ktm_keyed::KeyedList;
use std::alloc::Global;

// The tags of an event of a transaction that commits one part alone, and of a part with settings.
const SINGLE: u8 = 5;

const SETTINGS: u8 = 3;

// The tags of what a key is set to.
const UNSET: u8 = 0;

const SET: u8 = 1;

/// Which transaction commits settings alone, and where these lie, if the event at a place of the bytes is of that kind.
pub fn settings_alone(bytes: &[u8], at: usize) -> Option<(Id, usize)>
    ensures { IfSome result (λ alone. IsSingleAt bytes.now at alone.0 alone.1) }
{
    let Some((SINGLE, after)) = u8_at(bytes, at) else {
        return None;
    };
    let (transaction, after) = read_id(bytes, after)?;
    let Some((SETTINGS, start)) = u8_at(bytes, after) else {
        return None;
    };
    Some((transaction, start))
}

// The key at a place, where it lies, and the place behind it.
fn key_in(bytes: &[u8], at: usize) -> Option<(&[u8], usize)>
    ensures { Reads IsKeyOf bytes.now at (option_map (λ read. (read.0.now, read.1)) result) }
{
    let (key, end) = text_at(bytes, at)?;
    if !is_text(key) {
        return None;
    }
    Some((key, end))
}

// What a key is set to, where it lies, and the place behind it.
fn set_to_in(bytes: &[u8], at: usize) -> Option<(Option<&[u8]>, usize)>
    ensures { Reads IsSetTo bytes.now at (option_map (λ read. (option_map (λ value. value.now) read.0, read.1)) result) }
{
    let (tag, after) = u8_at(bytes, at)?;
    match tag {
        UNSET => Some((None, after)),
        SET => {
            let (value, end) = value_at(bytes, after)?;
            Some((Some(value), end))
        }
        _ => None,
    }
}

// The setting at a place, where it lies: its key, what that is set to, and the place behind it.
fn setting_in(bytes: &[u8], at: usize) -> Option<(&[u8], Option<&[u8]>, usize)>
    ensures { Reads IsSettingOf bytes.now at (option_map (λ read. (record { key = read.0.now; value = option_map (λ value. value.now) read.1 }, read.2)) result) }
{
    let (key, after) = key_in(bytes, at)?;
    let (value, end) = set_to_in(bytes, after)?;
    Some((key, value, end))
}

// Are a key and what it is set to within the limits.
fn is_good(key: &[u8], value: Option<&[u8]>) -> bool
    ensures { result ≡ is_good_setting (record { key = key.now; value = option_map (λ v. v.now) value.entry }) }
{
    let value_len = match value {
        Some(value) => value.len(),
        None => 0,
    };
    !key.is_empty() && key.len() <= MOST_KEY_BYTES && value_len <= MOST_VALUE_BYTES
}

// May a setting stand behind the one with this key: it has a key that comes behind it, and is within the limits.
fn is_next(last: &[u8], key: &[u8], value: Option<&[u8]>) -> bool
    ensures { result ≡ (comes_before last.now key.now && is_good_setting (record { key = key.now; value = option_map (λ v. v.now) value.entry })) }
{
    last.cmp(key).is_lt() && is_good(key, value)
}

// Makes a setting in the store, which takes memory for a copy of it.
fn make(
    alloc: Global,
    keys: &mut KeyedList<Bytes>,
    key: &[u8],
    value: Option<&[u8]>,
) -> Result<(), NoMemory>
    ensures { OnOk result (keys.new.items ≡ stored keys.old.items (record { key = key.now; value = option_map (λ v. v.now) value.entry })) }
{
    match value {
        Some(value) => {
            let key = Text::new(key.to_vec(alloc)?);
            let value = Bytes::new(value.to_vec(alloc)?);
            keys.put(key, value)
        }
        None => {
            keys.remove(key);
            Ok(())
        }
    }
}

/// Makes so many settings in the store which lie at a place, one behind another, and gives the place behind them. There is none
/// where they are not by rising key or not within the limits; the store is then of no use, as it is where memory is wanted.
pub(crate) fn make_all_in(
    alloc: Global,
    keys: &mut KeyedList<Bytes>,
    bytes: &[u8],
    start: usize,
    count: u32,
) -> Result<Option<usize>, NoMemory>
    requires { start ≤ length bytes.now }
    ensures { IfOk result (MadeUpTo bytes.now start count keys.old.items keys.new.items) }
{
    let mut last: &[u8] = &[];
    let mut end = start;
    'settings: for _ in 0..count {
        let Some((key, value, next)) = setting_in(bytes, end) else {
            return Ok(None);
        };
        if !is_next(last, key, value) {
            return Ok(None);
        }
        make(alloc, keys, key, value)?;
        last = key;
        end = next;
    }
    Ok(Some(end))
}
