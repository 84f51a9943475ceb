// The durable state in memory, as its users see it.
ghost use Rattle.std.specs.Prelude.{◌≡◌, ℕ, ◌+◌, ◌-◌, ◌^◌, ◌<◌, ◌≤◌, List, [], ◌∷◌, ◌++◌, All, length, sum_by};
ghost use Rattle.ktm_event.specs.Kept.{Holds};
ghost use Rattle.ktm_event.specs.Spelling.{IsSpellableEvent};
ghost use Rattle.ktm_world.specs.declared.event.Event.{Event as Recording};
ghost use Rattle.ktm_world.specs.Sizes.{event_size};
ghost use Rattle.ktm_world.specs.Durable.{after_events};
ghost use Rattle.ktm_world.specs.Tree.{bytes_or_none, units_of};
ghost use Rattle.ktm_world.specs.World.{own_group};
ghost use Rattle.txf_tree.specs.TreeState.{tree_of, versions_of};

use crate::own::{push_all_own, push_boot};
use ktm_base::Id;
use ktm_event::Events;
use ktm_replayed::{DurableParts, Replayed};
use ktm_world::Recorded;
use std::marker::Model;

/// What an image stands for, over the places of bytes. The groups of its log are applied in place to the state of its snapshot: neither
/// a change nor a key or a value is copied.
#[derive(Drop)]
pub struct Durable {
    replayed: Replayed,
}

impl Model for Durable {
    ghost use Rattle.ktm_world.specs.Durable.{Durable};

    ghost Value = { Durable };

    ghost view = { λ s. s.replayed.state };
}

impl Durable {
    /// The state that was read.
    pub(crate) fn from(replayed: Replayed) -> Self
        ensures { result ≡ replayed.state }
    {
        Durable { replayed }
    }

    /// How many units the image has.
    pub fn units(&self) -> u32
        ensures { result ≡ self.now.units }
    {
        self.replayed.units()
    }

    /// The image's number.
    pub fn image(&self) -> u16
        ensures { result ≡ self.now.image }
    {
        self.replayed.image()
    }

    /// How many events were ever recorded.
    pub fn events(&self) -> u64
        ensures { result ≡ self.now.events }
    {
        self.replayed.events()
    }

    /// How many boots there were.
    pub fn boots(&self) -> u32
        ensures { result ≡ self.now.boots }
    {
        self.replayed.boots()
    }

    /// The durable resource managers, by rising Id.
    pub fn managers(&self) -> &[Id]
        ensures { result.now ≡ self.now.managers }
    {
        self.replayed.managers()
    }

    /// The transactions that are not over, by rising Id.
    pub fn transactions(&self) -> &[Recorded]
        ensures { result.now ≡ self.now.transactions }
    {
        self.replayed.transactions()
    }

    /// What a machine starts from.
    pub fn into_parts(self) -> DurableParts
        ensures tree { tree_of result.files.tree ≡ self.tree }
        ensures versions { versions_of result.files.tree ≡ [] }
        ensures units { result.files.units ≡ sum_by (λ node. units_of (bytes_or_none node.content)) self.tree }
        ensures next_node { result.files.next_node ≡ self.next_node }
        ensures keys { result.keys.items ≡ self.keys }
        ensures managers { result.managers.items ≡ self.managers }
        ensures transactions { result.transactions.items ≡ self.transactions }
    {
        let Durable { replayed } = self;
        replayed.into_parts()
    }

    /// Puts the events into the list that a restart records by itself: a boot, and that the files and the keys of each decided
    /// transaction are done.
    pub fn own_group(&self, events: &mut Events)
        requires boots { self.now.boots + 1 < 2 ^ 32 }
        requires spelled { All IsSpellableEvent (own_group self.now) }
        requires fits { sum_by event_size (own_group self.now) ≤ events.old.spare }
        ensures adds { (group : List Recording) → Holds events.old group → Holds events.new (group ++ own_group self.now) }
        ensures spare { events.new.spare + sum_by event_size (own_group self.now) ≡ events.old.spare }
        ensures room { events.new.room ≡ events.old.room }
        ensures capacity { events.old.capacity ≤ events.new.capacity }
    {
        push_boot(self.boots() + 1, events);
        push_all_own(self.transactions(), events);
    }

    /// Makes of the state what the group of a restart makes of it, which takes no memory.
    pub fn begin(&mut self)
        requires boots { self.old.boots + 1 < 2 ^ 32 }
        requires events { self.old.events + length (own_group self.old) < 2 ^ 63 }
        ensures { self.new ≡ after_events self.old (own_group self.old) }
    {
        self.replayed.begin();
    }
}
