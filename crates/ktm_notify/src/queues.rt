// The queues of all resource managers, in one table of slots.
ghost use Rattle.std.specs.Prelude.{◌≡◌, ◌+◌, ◌-◌, ◌*◌, ◌^◌, ◌<◌, ◌≤◌, ◌++◌, ◌∷◌, [], IfNone, OnSome, IsOk, None, OnErr, OnOk, false, is_some, length, max, min, true};
ghost use Rattle.ktm_notify.specs.Linked.{linked_behind};
ghost use Rattle.ktm_notify.specs.Queues.{first_note, queue_at, with_note, without_first, KeepsSlots};

use crate::note::Note;
use ktm_base::NoMemory;
use ktm_links::{Key, List};
use std::alloc::Global;
use std::marker::Model;

/// A notification that waits, and the one behind it in its queue.
#[derive(Clone, Copy)]
pub(crate) struct Slot {
    manager: usize,
    note: Note,
    next: Option<Key>,
}

/// The first and the last notification of a queue.
#[derive(Clone, Copy)]
pub(crate) struct QueueEnds {
    first: Option<Key>,
    last: Option<Key>,
}

/// The queues of resource managers, each by its manager's place among all. What is sent to one touches no other.
#[derive(Drop)]
pub struct Queues {
    slots: List<Slot>,
    ends: Vec<QueueEnds>,
    // How many notifications are promised room, of what the slots have.
    promised: usize,
}

impl QueueEnds {
    // The ends once the first notification is taken, with this one behind it, if there is one.
    fn without_first(self, next: Option<Key>) -> QueueEnds
        ensures first { result.first ≡ next }
        ensures more { is_some next ≡ true → result.last ≡ self.last }
        ensures none { is_some next ≡ false → result.last ≡ None }
    {
        match next {
            Some(_) => QueueEnds {
                first: next,
                last: self.last,
            },
            None => QueueEnds {
                first: None,
                last: None,
            },
        }
    }
}

impl Model for Queues {
    ghost use Rattle.ktm_notify.specs.Queues.{QueuesState};
    ghost use Rattle.ktm_notify.specs.Linked.{queues_in, AreQueues};
    ghost use Rattle.std.specs.Prelude.{◌-◌, ◌≤◌, length, vec_len, vec_capacity};

    ghost Value = { QueuesState };

    ghost view = { λ q. record { queues = queues_in q.slots.items 0 q.ends.items; waiting = length q.slots.items; spare = q.promised; sent = q.slots.next; room = vec_capacity q.ends - vec_len q.ends } };

    ghost invariant = { λ q. AreQueues q.slots.items q.ends.items × (q.promised ≤ q.slots.spare) };
}

// Links the last notification of a queue, if it has one, to the one behind it.
fn link(slots: &mut List<Slot>, last: Option<Key>, next: Key)
    ensures items { slots.new.items ≡ linked_behind slots.old.items last next }
    ensures list { (slots.new.next ≡ slots.old.next) × (slots.new.spare ≡ slots.old.spare) }
{
    let Some(last) = last else {
        return;
    };
    if let Some(slot) = slots.get(last) {
        let slot = Slot {
            next: Some(next),
            ..*slot
        };
        let _ = slots.replace(last, slot);
    }
}

impl Queues {
    /// No queues.
    pub fn new(alloc: Global) -> Self
        ensures queues { result.queues ≡ [] }
        ensures waiting { result.waiting ≡ 0 }
        ensures sent { result.sent ≡ 0 }
    {
        Queues {
            slots: List::new(alloc),
            ends: Vec::new(alloc),
            promised: 0,
        }
    }

    /// How many queues there are.
    pub fn len(&self) -> usize
        ensures { result ≡ length self.now.queues }
    {
        self.ends.len()
    }

    /// Makes room for one queue more.
    pub fn reserve_queue(&mut self) -> Result<(), NoMemory>
        ensures room { OnOk result (0 < self.new.room) }
        ensures enough { 0 < self.old.room → IsOk result }
        ensures grows { self.old.room ≤ self.new.room }
        ensures queues { self.new.queues ≡ self.old.queues }
        ensures slots { KeepsSlots self.old self.new }
    {
        self.ends.reserve(1)?;
        Ok(())
    }

    /// A queue more, of a resource manager behind all others, with nothing in it. It takes no memory, and cannot fail.
    pub fn add(&mut self)
        requires { 0 < self.old.room }
        ensures queues { self.new.queues ≡ self.old.queues ++ [] ∷ [] }
        ensures room { self.new.room + 1 ≡ self.old.room }
        ensures slots { KeepsSlots self.old self.new }
    {
        self.ends.push_reserved(QueueEnds {
            first: None,
            last: None,
        });
    }

    /// How many notifications can be sent without memory.
    pub fn spare(&self) -> usize
        ensures { result ≡ self.now.spare }
    {
        self.promised
    }

    /// Makes room for so many notifications more, of which that for those before counts: no more is promised than is asked for.
    pub fn reserve_notes(&mut self, n: usize) -> Result<(), NoMemory>
        ensures ok { OnOk result (self.new.spare ≡ max n self.old.spare) }
        ensures err { OnErr result (self.new.spare ≡ self.old.spare) }
        ensures enough { n ≤ self.old.spare → IsOk result }
        ensures queues { self.new.queues ≡ self.old.queues }
        ensures waiting { self.new.waiting ≡ self.old.waiting }
        ensures sent { self.new.sent ≡ self.old.sent }
        ensures room_for_queues { self.new.room ≡ self.old.room }
    {
        if n > self.promised {
            self.slots.reserve(n)?;
            self.promised = n;
        }
        Ok(())
    }

    /// Puts a notification at the end of a queue. It takes no memory, and cannot fail.
    pub fn send(&mut self, manager: usize, note: Note)
        requires there { manager < length self.old.queues }
        requires spare { 0 < self.old.spare }
        ensures queues { self.new.queues ≡ with_note self.old.queues manager note }
        ensures waiting { self.new.waiting ≡ self.old.waiting + 1 }
        ensures spare { self.new.spare + 1 ≡ self.old.spare }
        ensures sent { self.new.sent ≡ self.old.sent + 1 }
        ensures room { self.new.room ≡ self.old.room }
    {
        let key = self.slots.push_spare(Slot {
            manager,
            note,
            next: None,
        });
        let ends = self.ends[manager];
        link(&mut self.slots, ends.last, key);
        self.ends[manager] = QueueEnds {
            first: Some(ends.first.unwrap_or(key)),
            last: Some(key),
        };
        self.promised -= 1;
    }

    /// The first notification of a queue, if one waits.
    pub fn first(&self, manager: usize) -> Option<Note>
        requires { manager < length self.now.queues }
        ensures { result ≡ first_note (queue_at self.now.queues manager) }
    {
        let first = self.ends[manager].first?;
        let slot = self.slots.get(first)?;
        Some(slot.note)
    }

    /// Takes the first notification out of a queue, if one waits. Its room is there for another, as long as fewer than 2^64 - 1
    /// were sent.
    pub fn take(&mut self, manager: usize) -> Option<Note>
        requires { manager < length self.old.queues }
        ensures note { result ≡ first_note (queue_at self.old.queues manager) }
        ensures queues { self.new.queues ≡ without_first self.old.queues manager }
        ensures waiting { OnSome result (self.new.waiting + 1 ≡ self.old.waiting) }
        ensures spare { OnSome result (self.new.spare ≡ min (self.old.spare + 1) (2 ^ 64 - 1 - self.old.sent)) }
        ensures no_less { self.old.spare ≤ self.new.spare }
        ensures sent { self.new.sent ≡ self.old.sent }
        ensures room { self.new.room ≡ self.old.room }
        ensures none { IfNone result (self.new ≡ self.old) }
    {
        let ends = self.ends[manager];
        let Some(first) = ends.first else {
            return None;
        };
        let Some(slot) = self.slots.unlink(first) else {
            unreachable!();
        };
        self.ends[manager] = ends.without_first(slot.next);
        self.promised = self.slots.spare().min(self.promised.saturating_add(1));
        Some(slot.note)
    }
}
