// Settings, each a key and what it is set to.
ghost use Rattle.std.specs.Prelude.{◌≡◌, ◌+◌, ◌<◌, ◌≤◌, ◌^◌, length, sum_by, IfSome, OnErr, OnOk, vec_len, vec_capacity};
ghost use Rattle.ktm_base.specs.Grammar.{IsListOf};
ghost use Rattle.ktm_codec.specs.Spans.{Adds};
ghost use Rattle.ktm_world.specs.EventGrammar.{AreSettingsOf, IsSetTo, IsSettingOf};
ghost use Rattle.ktm_world.specs.Sizes.{set_to_size, setting_size};
ghost use Rattle.ktm_event.specs.Reading.{Gives};
ghost use Rattle.ktm_event.specs.Spelling.{AreSpellableSettings, IsSpellableSetting};

use crate::EventFault;
use crate::field::{count_at, key_at, tag_at};
use ktm_base::{Bytes, NoMemory};
use ktm_codec::{put_text, put_u8, put_u32, put_value, value_at};
use ktm_keyed::is_rising;
use ktm_world::{Setting, Settings};
use std::alloc::Global;

const UNSET: u8 = 0;

const SET: u8 = 1;

fn set_to_at(alloc: Global, bytes: &[u8], at: usize) -> Result<(Option<Bytes>, usize), EventFault>
    ensures { Gives IsSetTo bytes.now at result }
{
    let (tag, after) = tag_at(bytes, at)?;
    match tag {
        UNSET => Ok((None, after)),
        SET => {
            let Some((value, end)) = value_at(bytes, after) else {
                return Err(EventFault::NotAnEvent);
            };
            let value = Bytes::new(value.to_vec(alloc)?);
            Ok((Some(value), end))
        }
        _ => Err(EventFault::NotAnEvent),
    }
}

fn setting_at(alloc: Global, bytes: &[u8], at: usize) -> Result<(Setting, usize), EventFault>
    ensures { Gives IsSettingOf bytes.now at result }
{
    let (key, after) = key_at(alloc, bytes, at)?;
    let (value, end) = set_to_at(alloc, bytes, after)?;
    Ok((Setting { key, value }, end))
}

// A list of settings in any order.
fn list_at(alloc: Global, bytes: &[u8], at: usize) -> Result<(Settings, usize), EventFault>
    ensures { Gives (IsListOf IsSettingOf) bytes.now at result }
{
    let (count, start) = count_at(bytes, at)?;
    let mut settings = Vec::new(alloc);
    let mut end = start;
    'settings: for _ in 0..count {
        let (setting, next) = setting_at(alloc, bytes, end)?;
        settings.push(setting)?;
        end = next;
    }
    Ok((Settings::new(settings), end))
}

pub(crate) fn settings_at(
    alloc: Global,
    bytes: &[u8],
    at: usize,
) -> Result<(Settings, usize), EventFault>
    ensures { Gives AreSettingsOf bytes.now at result }
{
    let (settings, end) = list_at(alloc, bytes, at)?;
    if !is_rising(settings.as_slice()) {
        return Err(EventFault::NotAnEvent);
    }
    Ok((settings, end))
}

// Each function below writes at the end, and takes no memory where there is room for what it writes.

fn put_set_to(out: &mut Vec<u8>, value: &Option<Bytes>) -> Result<(), NoMemory>
    requires { IfSome value.now (λ bytes. length bytes < 2 ^ 16) }
    ensures adds { OnOk result (Adds (IsSetTo value.now) out.old.items out.new.items) }
    ensures len { OnOk result (vec_len out.new ≡ vec_len out.old + set_to_size value.now) }
    ensures room { vec_capacity out.old ≤ vec_capacity out.new }
    ensures full { OnErr result (vec_capacity out.old < vec_len out.old + set_to_size value.now) }
{
    let Some(value) = value else {
        out.push(UNSET)?;
        return Ok(());
    };
    out.reserve(3 + value.len())?;
    put_u8(out, SET);
    put_value(out, value.as_slice());
    Ok(())
}

fn put_setting(out: &mut Vec<u8>, setting: &Setting) -> Result<(), NoMemory>
    requires { IsSpellableSetting setting.now }
    ensures adds { OnOk result (Adds (IsSettingOf setting.now) out.old.items out.new.items) }
    ensures len { OnOk result (vec_len out.new ≡ vec_len out.old + setting_size setting.now) }
    ensures room { vec_capacity out.old ≤ vec_capacity out.new }
    ensures full { OnErr result (vec_capacity out.old < vec_len out.old + setting_size setting.now) }
{
    out.reserve(1 + setting.key.len())?;
    put_text(out, setting.key.as_slice());
    put_set_to(out, &setting.value)
}

pub(crate) fn put_settings(out: &mut Vec<u8>, settings: &[Setting]) -> Result<(), NoMemory>
    requires { AreSpellableSettings settings.now }
    ensures adds { OnOk result (Adds (AreSettingsOf settings.now) out.old.items out.new.items) }
    ensures len { OnOk result (vec_len out.new ≡ vec_len out.old + 4 + sum_by setting_size settings.now) }
    ensures room { vec_capacity out.old ≤ vec_capacity out.new }
    ensures full { OnErr result (vec_capacity out.old < vec_len out.old + 4 + sum_by setting_size settings.now) }
{
    out.reserve(4)?;
    put_u32(out, settings.len() as u32);
    for setting in settings {
        put_setting(out, setting)?;
    }
    Ok(())
}
