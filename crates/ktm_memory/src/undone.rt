// What the passing of time records: the transactions whose timeouts are reached, and of which the log has something, roll back.
ghost use Rattle.std.specs.Prelude.{◌≡◌, ◌+◌, ◌≤◌, ◌++◌, ◌∷◌, ◌&&◌, List, [], All, filter, sum_by};
ghost use Rattle.std.specs.List.{flat_map};
ghost use Rattle.ktm_standing.specs.Effects.{undo_of};
ghost use Rattle.ktm_event.specs.Kept.{Holds};
ghost use Rattle.ktm_event.specs.Spelling.{IsSpellableEvent};
ghost use Rattle.ktm_world.specs.Sizes.{event_size};
ghost use Rattle.ktm_world.specs.declared.event.Event.{Event as Recorded};
ghost use Rattle.ktm_world.specs.TransactionCalls.{is_due, later};
ghost use Rattle.ktm_world.specs.Transactions.{is_live};

use ktm_base::Id;
use ktm_event::Events;
use ktm_tm::Tm;
use ktm_world::{Event, Transaction};

// Is it recorded that the transaction rolls back, so many milliseconds later.
fn is_undone(tm: &Tm, ms: u32, t: &Transaction) -> bool
    ensures { result ≡ (is_due (later tm.now.now.clock ms) t.now && t.now.is_recorded) }
{
    tm.is_due_in(ms as u64, t) && t.is_recorded
}

// Puts the event into the list.
fn push_undo(transaction: Id, events: &mut Events)
    requires spelled { IsSpellableEvent (Recorded.Undo transaction) }
    requires fits { event_size (Recorded.Undo transaction) ≤ events.old.spare }
    ensures adds { (group : List Recorded) → Holds events.old group → Holds events.new (group ++ Recorded.Undo transaction ∷ []) }
    ensures spare { events.new.spare + event_size (Recorded.Undo transaction) ≡ events.old.spare }
    ensures room { events.new.room ≡ events.old.room }
{
    events.push(&Event::Undo { transaction });
}

// Puts it there where it is recorded.
fn record_one(tm: &Tm, ms: u32, t: &Transaction, events: &mut Events)
    requires spelled { All IsSpellableEvent (undo_of (later tm.now.now.clock ms) t.now) }
    requires fits { sum_by event_size (undo_of (later tm.now.now.clock ms) t.now) ≤ events.old.spare }
    ensures adds { (group : List Recorded) → Holds events.old group → Holds events.new (group ++ undo_of (later tm.now.now.clock ms) t.now) }
    ensures spare { events.new.spare + sum_by event_size (undo_of (later tm.now.now.clock ms) t.now) ≡ events.old.spare }
    ensures room { events.new.room ≡ events.old.room }
{
    if is_undone(tm, ms, t) {
        push_undo(t.id, events);
    }
}

/// Puts the events into the list, in order of creation.
pub(crate) fn record_undone(tm: &Tm, ms: u32, events: &mut Events)
    requires empty { Holds events.old [] }
    requires spelled { All IsSpellableEvent (flat_map (undo_of (later tm.now.now.clock ms)) (filter is_live tm.now.now.items)) }
    requires fits { sum_by event_size (flat_map (undo_of (later tm.now.now.clock ms)) (filter is_live tm.now.now.items)) ≤ events.old.spare }
    ensures holds { Holds events.new (flat_map (undo_of (later tm.now.now.clock ms)) (filter is_live tm.now.now.items)) }
    ensures room { events.new.room ≡ events.old.room }
{
    for place in tm.due_from(ms as u64)..tm.live_count() {
        if let Some(t) = tm.live_at(place) {
            record_one(tm, ms, &t, events);
        }
    }
}
