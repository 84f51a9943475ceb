// The durable resource managers, one after another.
ghost use Rattle.std.specs.Prelude.{◌≡◌, ◌++◌, [], IfNone, count_by, length, option_to_list};
ghost use Rattle.ktm_manager.specs.Durable.{durable_listed};

use crate::managers::Listed;
use ktm_base::Id;
use std::marker::Model;

/// The Ids of the durable resource managers that are left, by rising Id.
#[derive(Drop)]
pub struct DurableManagers<'a> {
    // Those that are not durable too.
    listed: &'a [Listed],
}

impl<'a> Model for DurableManagers<'a> {
    ghost use Rattle.std.specs.Prelude.{List};
    ghost use Rattle.ktm_base.specs.declared.id.Id.{Id};
    ghost use Rattle.ktm_manager.specs.Durable.{durable_listed};

    ghost Value = { List Id };

    ghost view = { λ d. durable_listed d.listed.now };
}

// How many of them are durable.
fn count_of(listed: &[Listed]) -> usize
    ensures { result ≡ count_by (λ x. x.is_durable) listed.now }
{
    listed.iter().filter(|x| x.is_durable).count()
}

impl<'a> DurableManagers<'a> {
    pub(crate) fn new(listed: &'a [Listed]) -> DurableManagers<'a>
        ensures { result ≡ durable_listed listed.now }
    {
        DurableManagers { listed }
    }

    /// How many are left.
    pub fn len(&self) -> usize
        ensures { result ≡ length self.now }
    {
        count_of(self.listed)
    }

    /// The Id of the next one, if one is left.
    pub fn next(&mut self) -> Option<Id>
        ensures first { self.old ≡ option_to_list result ++ self.new }
        ensures none { IfNone result (self.old ≡ []) }
    {
        while let [manager, rest @ ..] = self.listed {
            self.listed = rest;
            if manager.is_durable {
                return Some(manager.id);
            }
        }
        None
    }
}
