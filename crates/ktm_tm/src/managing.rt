// The resource managers, and what waits for them.
ghost use Rattle.std.specs.Prelude.{◌≡◌, ◌+◌, ◌<◌, ◌≤◌, ◌++◌, ◌∷◌, [], IsOk, OnOk, Some, false, true, is_some, map, option_map};
ghost use Rattle.std.specs.List.{list_all};
ghost use Rattle.ktm_world.specs.Durable.{is_before};
ghost use Rattle.ktm_world.specs.Enlistments.{is_durable_at, manager_at};
ghost use Rattle.ktm_world.specs.Outcome.{served};
ghost use Rattle.ktm_world.specs.TransactionCalls.{no_manager_left};
ghost use Rattle.ktm_manager.specs.Durable.{durable_in};
ghost use Rattle.ktm_manager.specs.Managers.{first_of, note_of};
ghost use Rattle.ktm_tm.specs.TmState.{id_after, KeepsNow, KeepsRoom};

use crate::tm::Tm;
use ktm_base::{Id, MOST_LIVE, MOST_NUMBER, NoMemory};
use ktm_manager::DurableManagers;
use ktm_notify::Note;

impl Tm {
    /// Is there a resource manager with this Id.
    pub fn has_manager(&self, id: Id) -> bool
        ensures { result ≡ is_some (manager_at self.now.managers id) }
    {
        self.managers.contains(id)
    }

    /// Is there one with this Id, which is durable.
    pub fn is_durable(&self, id: Id) -> bool
        ensures { result ≡ is_durable_at self.now.managers id }
    {
        self.managers.is_durable(id)
    }

    /// The Ids of the durable ones, one after another, by rising Id.
    pub fn durable_managers(&self) -> DurableManagers<'_>
        ensures { result ≡ durable_in self.now.managers }
    {
        self.managers.durable()
    }

    /// The first notification that waits for the resource manager.
    pub fn first_note(&self, id: Id) -> Option<Note>
        ensures { option_map note_of result ≡ first_of (manager_at self.now.managers id) }
    {
        self.managers.first(id)
    }

    /// Takes the first notification that waits for the resource manager.
    pub fn take_note(&mut self, id: Id) -> Option<Note>
        ensures note { option_map note_of result ≡ first_of (manager_at self.old.managers id) }
        ensures managers { self.new.managers ≡ map (served (Some id) []) self.old.managers }
        ensures slots { self.old.slots ≤ self.new.slots }
        ensures now { self.new.now ≡ self.old.now }
        ensures room { KeepsRoom self.old self.new }
    {
        self.managers.take(id)
    }

    /// Would one resource manager more pass the limit of 64, or the greatest number.
    pub fn is_full_of_managers(&self) -> bool
        ensures { result ≡ no_manager_left self.now.managers self.now.now }
    {
        self.managers.len() >= MOST_LIVE || self.last_manager >= MOST_NUMBER
    }

    /// Takes the memory that one resource manager more needs.
    pub fn reserve_manager(&mut self) -> Result<(), NoMemory>
        ensures room { OnOk result (1 ≤ self.new.manager_room) }
        ensures enough { 1 ≤ self.old.manager_room → IsOk result }
        ensures now { KeepsNow self.old self.new }
        ensures enlistment_room { self.new.enlistment_room ≡ self.old.enlistment_room }
        ensures slots { self.new.slots ≡ self.old.slots }
    {
        self.managers.reserve()
    }

    /// The Id of the resource manager that is made next.
    pub fn next_manager_id(&self) -> Id
        requires { no_manager_left self.now.managers self.now.now ≡ false }
        ensures { result ≡ id_after self.now.boot self.now.now.last_manager }
    {
        Id {
            boot: self.boot(),
            number: self.last_manager + 1,
        }
    }

    /// Makes a resource manager with the next number. It takes no memory.
    pub fn create_manager(&mut self, is_durable: bool) -> Id
        requires left { no_manager_left self.old.managers self.old.now ≡ false }
        requires room { 1 ≤ self.old.manager_room }
        ensures id { result ≡ id_after self.old.boot self.old.now.last_manager }
        ensures boot { self.new.boot ≡ self.old.boot }
        ensures now { self.new.now ≡ record self.old.now { last_manager = self.old.now.last_manager + 1 } }
        ensures managers { self.new.managers ≡ self.old.managers ++ record { id = result; is_durable = is_durable; queue = [] } ∷ [] }
        ensures manager_room { self.new.manager_room + 1 ≡ self.old.manager_room }
        ensures room { self.new.room ≡ self.old.room }
        ensures enlistment_room { self.new.enlistment_room ≡ self.old.enlistment_room }
        ensures slots { self.new.slots ≡ self.old.slots }
    {
        let id = self.next_manager_id();
        self.managers.add(id, is_durable);
        self.last_manager = id.number;
        id
    }

    /// A durable resource manager that a restart brings back, behind the others. It takes no memory.
    pub fn bring_back_manager(&mut self, id: Id)
        requires earlier { id.boot < self.old.boot }
        requires behind { list_all (λ m. is_before m.id id) self.old.managers ≡ true }
        requires room { 1 ≤ self.old.manager_room }
        ensures boot { self.new.boot ≡ self.old.boot }
        ensures now { self.new.now ≡ self.old.now }
        ensures managers { self.new.managers ≡ self.old.managers ++ record { id = id; is_durable = true; queue = [] } ∷ [] }
        ensures manager_room { self.new.manager_room + 1 ≡ self.old.manager_room }
        ensures room { self.new.room ≡ self.old.room }
        ensures enlistment_room { self.new.enlistment_room ≡ self.old.enlistment_room }
        ensures slots { self.new.slots ≡ self.old.slots }
    {
        self.managers.add(id, true);
    }
}
