// A value with its name.
ghost use Rattle.std.specs.Prelude.{◌≡◌};

use crate::name::Name;
use std::marker::Model;

/// A value and its name.
#[derive(Drop)]
pub(crate) struct Named<K: Name, T> {
    name: K,
    value: T,
}

impl<K: Name, T> Model for Named<K, T> {
    ghost use Rattle.ktm_links.specs.Mapped.{NameAndValue, name_and_value_code};

    ghost Value = { NameAndValue T };

    ghost coded = { name_and_value_code T.code };

    ghost view = { λ n. record {
      name = K.bytes n.name;
      value = n.value;
    } };
}

impl<K: Name, T> Named<K, T> {
    ghost use Rattle.std.specs.Borrow.{sem};
    ghost use Rattle.ktm_links.specs.Lends.{lends_named};

    pub(crate) fn new(name: K, value: T) -> Self
        ensures { result ≡ record { name = K.bytes name; value = value } }
    {
        Named { name, value }
    }

    pub(crate) fn name(&self) -> &[u8]
        ensures { result.now ≡ self.now.name }
    {
        self.name.as_slice()
    }

    pub(crate) fn value(&self) -> &T
        ensures { result.now ≡ self.now.value }
    {
        &self.value
    }

    /// The value, for writing.
    pub(crate) fn value_mut(&mut self) -> &mut T
        ensures* writes_back { sem 𝓛 (lends_named K.row T.row K.Name self.entry result) }
        ensures value { result.now ≡ self.old.value }
    {
        &mut self.value
    }

    pub(crate) fn into_value(self) -> T
        ensures { result ≡ self.value }
    {
        self.value
    }
}
