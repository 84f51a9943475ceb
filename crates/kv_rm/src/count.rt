// How many settings of each kind the transactions have.
ghost use Rattle.std.specs.Prelude.{◌≡◌, ◌+◌, ◌<◌, ◌≤◌, ◌^◌, count_by, Some};
ghost use Rattle.kv_rm.specs.Count.{kind_of, is_of_kind, one_of, AreFew};
ghost use Rattle.kv_rm.specs.declared.count.Kind.TheVariants.{Value, Unset};

use ktm_base::Bytes;
use ktm_world::Setting;

/// What a setting does with its key.
#[derive(Clone, Copy)]
pub enum Kind {
    /// It gives the key a value.
    Value,
    /// It unsets the key.
    Unset,
}

/// How many settings of all transactions give a value, and how many unset a key.
#[derive(Clone, Copy)]
pub struct Counts {
    pub values: usize,
    pub unsets: usize,
}

pub fn kind_of(value: &Option<Bytes>) -> Kind
    ensures { result ≡ kind_of value.now }
{
    match value {
        Some(_) => Kind::Value,
        None => Kind::Unset,
    }
}

fn count_values(settings: &[Setting]) -> usize
    ensures { result ≡ count_by (is_of_kind Value) settings.now }
{
    settings.iter().filter(|s| s.value.is_some()).count()
}

impl Counts {
    /// How many settings there are.
    pub fn all(self) -> usize
        requires { AreFew self }
        ensures { result ≡ self.values + self.unsets }
    {
        self.values + self.unsets
    }

    /// The counts without a setting of this kind, if there was one.
    fn without(self, was: Option<Kind>) -> Counts
        requires values { one_of Value was ≤ self.values }
        requires unsets { one_of Unset was ≤ self.unsets }
        ensures values { result.values + one_of Value was ≡ self.values }
        ensures unsets { result.unsets + one_of Unset was ≡ self.unsets }
    {
        match was {
            Some(Kind::Value) => Counts {
                values: self.values - 1,
                unsets: self.unsets,
            },
            Some(Kind::Unset) => Counts {
                values: self.values,
                unsets: self.unsets - 1,
            },
            None => self,
        }
    }

    /// The counts with a setting of this kind, in place of what there was under its key.
    pub fn with(self, was: Option<Kind>, kind: Kind) -> Counts
        requires values { one_of Value was ≤ self.values }
        requires unsets { one_of Unset was ≤ self.unsets }
        requires few_values { self.values < 2 ^ 32 }
        requires few_unsets { self.unsets < 2 ^ 32 }
        ensures values { result.values + one_of Value was ≡ self.values + one_of Value (Some kind) }
        ensures unsets { result.unsets + one_of Unset was ≡ self.unsets + one_of Unset (Some kind) }
    {
        let Counts { values, unsets } = self.without(was);
        match kind {
            Kind::Value => Counts {
                values: values + 1,
                unsets,
            },
            Kind::Unset => Counts {
                values,
                unsets: unsets + 1,
            },
        }
    }

    /// The counts with these settings too.
    pub fn more(self, settings: &[Setting]) -> Counts
        requires values { self.values + count_by (is_of_kind Value) settings.now < 2 ^ 32 }
        requires unsets { self.unsets + count_by (is_of_kind Unset) settings.now < 2 ^ 32 }
        ensures values { result.values ≡ self.values + count_by (is_of_kind Value) settings.now }
        ensures unsets { result.unsets ≡ self.unsets + count_by (is_of_kind Unset) settings.now }
        ensures few { AreFew result }
    {
        let values = count_values(settings);
        Counts {
            values: self.values + values,
            unsets: self.unsets + (settings.len() - values),
        }
    }

    /// The counts without these settings.
    pub fn less(self, settings: &[Setting]) -> Counts
        requires values { count_by (is_of_kind Value) settings.now ≤ self.values }
        requires unsets { count_by (is_of_kind Unset) settings.now ≤ self.unsets }
        ensures values { result.values + count_by (is_of_kind Value) settings.now ≡ self.values }
        ensures unsets { result.unsets + count_by (is_of_kind Unset) settings.now ≡ self.unsets }
    {
        let values = count_values(settings);
        Counts {
            values: self.values - values,
            unsets: self.unsets - (settings.len() - values),
        }
    }
}
