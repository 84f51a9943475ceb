// The durable resource managers.
ghost use Rattle.std.specs.Prelude.{◌≡◌, ◌+◌, ◌<◌, ◌≤◌, ◌^◌, [], OnOk, OnErr, IsOk, length};
ghost use Rattle.std.specs.List.{list_any, position, position_or_len};
ghost use Rattle.ktm_world.specs.Durable.{is_before, with_manager};
ghost use Rattle.ktm_world.specs.Transactions.{same_id};

use ktm_base::{Id, NoMemory};
use std::alloc::Global;
use std::marker::Model;

/// Does the first Id come before the second: by its boot, and then by its number.
pub fn is_before(a: Id, b: Id) -> bool
    ensures { result ≡ is_before a b }
{
    a.boot < b.boot || (a.boot == b.boot && a.number < b.number)
}

// The index of the first that this Id comes before.
fn first_behind(items: &[Id], id: Id) -> Option<usize>
    ensures { result ≡ position (is_before id) items.now }
{
    items.iter().position(|other| is_before(id, *other))
}

// The place of this Id: before the first that it comes before.
fn place_of(items: &[Id], id: Id) -> usize
    ensures place { result ≡ position_or_len (is_before id) items.now }
    ensures within { result ≤ length items.now }
{
    first_behind(items, id).unwrap_or(items.len())
}

/// The Ids of the durable resource managers. There are few of them.
#[derive(Drop)]
pub struct Managers {
    items: Vec<Id>,
}

impl Model for Managers {
    ghost use Rattle.std.specs.Prelude.{◌-◌, vec_len, vec_capacity};
    ghost use Rattle.ktm_waiting.specs.Table.{ManagersState};

    ghost Value = { ManagersState };

    ghost view = { λ m. record {
      managers = m.items.items;
      spare = vec_capacity m.items - vec_len m.items;
    } };
}

impl Managers {
    pub fn new(alloc: Global) -> Self
        ensures { result.managers ≡ [] }
    {
        Managers {
            items: Vec::new(alloc),
        }
    }

    pub fn as_slice(&self) -> &[Id]
        ensures { result.now ≡ self.now.managers }
    {
        &self.items
    }

    pub fn into_vec(self) -> Vec<Id>
        ensures { result.items ≡ self.managers }
    {
        self.items
    }

    pub fn len(&self) -> usize
        ensures { result ≡ length self.now.managers }
    {
        self.items.len()
    }

    pub fn contains(&self, manager: Id) -> bool
        ensures { result ≡ list_any (λ other. same_id other manager) self.now.managers }
    {
        self.items.iter().any(|other| *other == manager)
    }

    /// Puts a manager at its place.
    pub fn add(&mut self, manager: Id) -> Result<(), NoMemory>
        ensures ok { OnOk result (self.new.managers ≡ with_manager self.old.managers manager) }
        ensures enough { 0 < self.old.spare → IsOk result }
    {
        let place = place_of(&self.items, manager);
        self.items.insert(place, manager)?;
        Ok(())
    }
}
