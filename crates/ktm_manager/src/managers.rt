// The resource managers, with a queue for each.
ghost use Rattle.std.specs.Prelude.{◌≡◌, ◌+◌, ◌≤◌, ◌++◌, ◌∷◌, [], IsOk, MatchOption, OnErr, OnOk, Some, None, is_some, length, map, max, option_map, true};
ghost use Rattle.std.specs.List.{list_all};
ghost use Rattle.ktm_world.specs.Durable.{is_before};
ghost use Rattle.ktm_world.specs.Enlistments.{is_durable_at, manager_at};
ghost use Rattle.ktm_world.specs.Outcome.{served};
ghost use Rattle.ktm_manager.specs.Durable.{durable_in};
ghost use Rattle.ktm_manager.specs.Managers.{first_of, note_of, KeepsManagers};
ghost use Rattle.ktm_manager.specs.Rising.{are_rising, IsAt, IsNowhere};

use crate::durable::DurableManagers;
use crate::order::order_of;
use ktm_base::{Id, NoMemory};
use ktm_notify::{Note, Queues};
use std::alloc::Global;
use std::marker::Model;

/// A resource manager, without what waits for it.
#[derive(Clone, Copy)]
pub(crate) struct Listed {
    pub(crate) id: Id,
    pub(crate) is_durable: bool,
}

/// The resource managers by rising Id. The notifications of the one at a place wait in the queue at that place.
#[derive(Drop)]
pub struct Managers {
    listed: Vec<Listed>,
    queues: Queues,
}

impl Model for Managers {
    ghost use Rattle.std.specs.Prelude.{◌≡◌, ◌-◌, length, min, true, vec_capacity, vec_len};
    ghost use Rattle.ktm_manager.specs.Managers.{managers_in, ManagersState};
    ghost use Rattle.ktm_manager.specs.Rising.{are_rising};

    ghost Value = { ManagersState };

    ghost view = { λ m. record {
      managers = managers_in m.listed.items m.queues.queues;
      spare = m.queues.spare;
      room = min (vec_capacity m.listed - vec_len m.listed) m.queues.room;
    } };

    ghost invariant = { λ m. (are_rising (λ x. x.id) m.listed.items ≡ true) × (length m.listed.items ≡ length m.queues.queues) };
}

// Where the resource manager with this Id stands, by halves.
fn place(listed: &[Listed], id: Id) -> Option<usize>
    requires { are_rising (λ x. x.id) listed.now ≡ true }
    ensures { MatchOption result (IsNowhere (λ x. x.id) listed.now id) (IsAt (λ x. x.id) listed.now id) }
{
    match listed.binary_search_by(|x| order_of(x.id, id)) {
        Ok(place) => Some(place),
        Err(_) => None,
    }
}

impl Managers {
    /// No resource managers.
    pub fn new(alloc: Global) -> Self
        ensures { result.managers ≡ [] }
    {
        Managers {
            listed: Vec::new(alloc),
            queues: Queues::new(alloc),
        }
    }

    /// How many resource managers there are.
    pub fn len(&self) -> usize
        ensures { result ≡ length self.now.managers }
    {
        self.listed.len()
    }

    /// Is there one with this Id.
    pub fn contains(&self, id: Id) -> bool
        ensures { result ≡ is_some (manager_at self.now.managers id) }
    {
        match place(&self.listed, id) {
            Some(_) => true,
            None => false,
        }
    }

    /// Is there one with this Id, which is durable.
    pub fn is_durable(&self, id: Id) -> bool
        ensures { result ≡ is_durable_at self.now.managers id }
    {
        match place(&self.listed, id) {
            Some(place) => self.listed[place].is_durable,
            None => false,
        }
    }

    /// The durable ones, one after another.
    pub fn durable(&self) -> DurableManagers<'_>
        ensures { result ≡ durable_in self.now.managers }
    {
        DurableManagers::new(&self.listed)
    }

    /// Makes room for one resource manager more.
    pub fn reserve(&mut self) -> Result<(), NoMemory>
        ensures room { OnOk result (1 ≤ self.new.room) }
        ensures enough { 1 ≤ self.old.room → IsOk result }
        ensures grows { self.old.room ≤ self.new.room }
        ensures managers { KeepsManagers self.old self.new }
    {
        self.listed.reserve(1)?;
        self.queues.reserve_queue()
    }

    /// A resource manager more, behind all others, for which nothing waits. It takes no memory.
    pub fn add(&mut self, id: Id, is_durable: bool)
        requires room { 1 ≤ self.old.room }
        requires behind { list_all (λ m. is_before m.id id) self.old.managers ≡ true }
        ensures managers { self.new.managers ≡ self.old.managers ++ record { id = id; is_durable = is_durable; queue = [] } ∷ [] }
        ensures spare { self.new.spare ≡ self.old.spare }
        ensures room { self.new.room + 1 ≡ self.old.room }
    {
        self.listed.push_reserved(Listed { id, is_durable });
        self.queues.add();
    }

    /// How many notifications can be sent without memory.
    pub fn spare(&self) -> usize
        ensures { result ≡ self.now.spare }
    {
        self.queues.spare()
    }

    /// Makes room for so many notifications more.
    pub fn reserve_notes(&mut self, n: usize) -> Result<(), NoMemory>
        ensures ok { OnOk result (self.new.spare ≡ max n self.old.spare) }
        ensures err { OnErr result (self.new.spare ≡ self.old.spare) }
        ensures enough { n ≤ self.old.spare → IsOk result }
        ensures managers { self.new.managers ≡ self.old.managers }
        ensures room { self.new.room ≡ self.old.room }
    {
        self.queues.reserve_notes(n)
    }

    /// The first notification that waits for the resource manager.
    pub fn first(&self, id: Id) -> Option<Note>
        ensures { option_map note_of result ≡ first_of (manager_at self.now.managers id) }
    {
        match place(&self.listed, id) {
            Some(place) => self.queues.first(place),
            None => None,
        }
    }

    /// Takes the first notification that waits for the resource manager.
    pub fn take(&mut self, id: Id) -> Option<Note>
        ensures note { option_map note_of result ≡ first_of (manager_at self.old.managers id) }
        ensures managers { self.new.managers ≡ map (served (Some id) []) self.old.managers }
        ensures spare { self.old.spare ≤ self.new.spare }
        ensures room { self.new.room ≡ self.old.room }
    {
        match place(&self.listed, id) {
            Some(place) => self.queues.take(place),
            None => None,
        }
    }

    /// Sends a notification to the resource manager. It takes no memory.
    pub fn send(&mut self, id: Id, note: Note)
        requires there { is_some (manager_at self.old.managers id) ≡ true }
        requires spare { 1 ≤ self.old.spare }
        ensures managers { self.new.managers ≡ map (served None (record { manager = id; note = note_of note } ∷ [])) self.old.managers }
        ensures spare { self.new.spare + 1 ≡ self.old.spare }
        ensures room { self.new.room ≡ self.old.room }
    {
        let Some(place) = place(&self.listed, id) else {
            unreachable!();
        };
        self.queues.send(place, note);
    }
}
