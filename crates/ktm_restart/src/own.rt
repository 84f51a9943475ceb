// What a restart records by itself of the transactions that are not over: that the files and the keys of each decided one are
// done.
ghost use Rattle.std.specs.Prelude.{◌≡◌, ◌+◌, ◌≤◌, ◌∷◌, ◌++◌, [], All, List, sum_by};
ghost use Rattle.std.specs.List.{flat_map};
ghost use Rattle.ktm_event.specs.Kept.{Holds};
ghost use Rattle.ktm_event.specs.Spelling.{IsSpellableEvent};
ghost use Rattle.ktm_world.specs.Sizes.{event_size};
ghost use Rattle.ktm_world.specs.declared.event.Event.{Event as Recording};
ghost use Rattle.ktm_world.specs.Durable.{has_undone};
ghost use Rattle.ktm_world.specs.World.{done_if, own_events};

use ktm_event::Events;
use ktm_waiting::has_undone;
use ktm_world::{DonePart, Event, Recorded};

/// Puts the event of a boot into the list.
pub(crate) fn push_boot(boot: u32, events: &mut Events)
    requires { 5 ≤ events.old.spare }
    ensures adds { (group : List Recording) → Holds events.old group → Holds events.new (group ++ Recording.Boot boot ∷ []) }
    ensures spare { events.new.spare + 5 ≡ events.old.spare }
    ensures room { events.new.room ≡ events.old.room }
    ensures capacity { events.old.capacity ≤ events.new.capacity }
{
    events.push(&Event::Boot { boot });
}

// Puts the event into the list that a participant is done, where it is to be recorded.
fn push_done(transaction: &Recorded, done: DonePart, events: &mut Events)
    requires spelled { All IsSpellableEvent (done_if (has_undone done transaction.now) transaction.now.id done) }
    requires fits { sum_by event_size (done_if (has_undone done transaction.now) transaction.now.id done) ≤ events.old.spare }
    ensures adds { (group : List Recording) → Holds events.old group
        → Holds events.new (group ++ done_if (has_undone done transaction.now) transaction.now.id done) }
    ensures spare { events.new.spare + sum_by event_size (done_if (has_undone done transaction.now) transaction.now.id done) ≡ events.old.spare }
    ensures room { events.new.room ≡ events.old.room }
    ensures capacity { events.old.capacity ≤ events.new.capacity }
{
    if has_undone(transaction, done) {
        let event = Event::Done {
            transaction: transaction.id,
            done,
        };
        events.push(&event);
    }
}

// Puts the events of a transaction into the list.
fn push_own(transaction: &Recorded, events: &mut Events)
    requires spelled { All IsSpellableEvent (own_events transaction.now) }
    requires fits { sum_by event_size (own_events transaction.now) ≤ events.old.spare }
    ensures adds { (group : List Recording) → Holds events.old group → Holds events.new (group ++ own_events transaction.now) }
    ensures spare { events.new.spare + sum_by event_size (own_events transaction.now) ≡ events.old.spare }
    ensures room { events.new.room ≡ events.old.room }
    ensures capacity { events.old.capacity ≤ events.new.capacity }
{
    push_done(transaction, DonePart::Files, events);
    push_done(transaction, DonePart::Keys, events);
}

/// Puts the events of the transactions into the list.
pub(crate) fn push_all_own(transactions: &[Recorded], events: &mut Events)
    requires spelled { All IsSpellableEvent (flat_map own_events transactions.now) }
    requires fits { sum_by event_size (flat_map own_events transactions.now) ≤ events.old.spare }
    ensures adds { (group : List Recording) → Holds events.old group → Holds events.new (group ++ flat_map own_events transactions.now) }
    ensures spare { events.new.spare + sum_by event_size (flat_map own_events transactions.now) ≡ events.old.spare }
    ensures room { events.new.room ≡ events.old.room }
    ensures capacity { events.old.capacity ≤ events.new.capacity }
{
    for transaction in transactions {
        push_own(transaction, events);
    }
}
