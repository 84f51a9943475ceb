// The limits on keys and values, and on settings that are recorded.
ghost use Rattle.std.specs.Prelude.{◌≡◌, ◌==◌, not};
ghost use Rattle.std.specs.List.{list_all};
ghost use Rattle.ktm_world.specs.Keys.{is_bad_key, is_bad_value, is_bad_set_to, is_good_setting, are_good_settings};

use crate::Setting;
use ktm_base::{Bytes, MOST_KEY_BYTES, MOST_VALUE_BYTES, Text};
use ktm_keyed::is_rising;

pub fn is_bad_key(key: &Text) -> bool
    ensures { result ≡ is_bad_key key.now }
{
    key.len() == 0 || key.len() > MOST_KEY_BYTES
}

pub fn is_bad_value(value: &Bytes) -> bool
    ensures { result ≡ is_bad_value value.now }
{
    value.len() > MOST_VALUE_BYTES
}

fn is_bad_set_to(value: &Option<Bytes>) -> bool
    ensures { result ≡ is_bad_set_to value.now }
{
    match value {
        Some(value) => is_bad_value(value),
        None => false,
    }
}

fn is_good_setting(setting: &Setting) -> bool
    ensures { result ≡ is_good_setting setting.now }
{
    !is_bad_key(&setting.key) && !is_bad_set_to(&setting.value)
}

fn all_are_good(settings: &[Setting]) -> bool
    ensures { result ≡ list_all is_good_setting settings.now }
{
    settings.iter().all(is_good_setting)
}

/// Are these settings as a transaction may record them: one at least, by rising key, each within the limits.
pub fn are_good_settings(settings: &[Setting]) -> bool
    ensures { result ≡ are_good_settings settings.now }
{
    !settings.is_empty() && is_rising(settings) && all_are_good(settings)
}
