// Recording what a plain call has to record.
ghost use Rattle.std.specs.Prelude.{◌≡◌, ℕ, ◌≤◌, ◌∷◌, List, sum_by, None, Some, [], All};
ghost use Rattle.ktm_content.specs.Places.{LieOn};
ghost use Rattle.ktm_event.specs.Kept.{Holds};
ghost use Rattle.ktm_event.specs.Spelling.{IsSpellableEvent};
ghost use Rattle.ktm_memory.specs.Decided.{HoldsRecordOf};
ghost use Rattle.ktm_memory.specs.Units.{CanBeRecorded, CanBeRecordedIf, SuitsExtent, recorded_as};
ghost use Rattle.ktm_paged.specs.Meaning.{size_before};
ghost use Rattle.ktm_world.specs.Sizes.{event_size};
ghost use Rattle.ktm_world.specs.declared.change.Change.{Change as Made};
ghost use Rattle.ktm_world.specs.declared.change.Change.TheVariants.{Put};
ghost use Rattle.ktm_world.specs.declared.change.Contents.TheVariants.{Whole};
ghost use Rattle.ktm_world.specs.declared.event.Event.{Event as Recorded};
ghost use Rattle.ktm_world.specs.Decide.{events_of};
ghost use Rattle.ktm_world.specs.Durable.{Durable};
ghost use Rattle.ktm_world.specs.Tree.{Tree};

use crate::extent::Extent;
use ktm_content::Placed;
use ktm_event::Events;
use ktm_world::{Change, Contents, Event};
use txf_calls::Plan;

// The change of the event of a plain call.
fn change_in(event: Event) -> Option<Change>
    ensures { (change : Made) → event ≡ Recorded.Plain change → result ≡ Some change }
{
    match event {
        Event::Plain { change } => Some(change),
        _other => None,
    }
}

// Records a change of a plain call that puts nothing, and hands it back.
fn record_as_it_is(events: &mut Events, change: Change) -> Change
    requires empty { Holds events.old [] }
    requires spelled { IsSpellableEvent (Recorded.Plain change) }
    requires can { (size : ℕ) × CanBeRecorded size change None }
    requires fits { event_size (Recorded.Plain change) ≤ events.old.spare }
    ensures same { result ≡ change }
    ensures holds { Holds events.new (Recorded.Plain change ∷ []) }
    ensures room { events.new.room ≡ events.old.room }
{
    let event = Event::Plain { change };
    events.push(&event);
    let Some(change) = change_in(event) else {
        unreachable!();
    };
    change
}

// Records a put of units by their extent. No page number is copied but into the list.
fn record_units(events: &mut Events, node: u64, start: u64, units: &Placed, extent: Extent)
    requires empty { Holds events.old [] }
    requires spelled { IsSpellableEvent (Recorded.Plain (Put node start (Whole units.now))) }
    requires can { (size : ℕ) × SuitsExtent size start units.now extent }
    requires fits { event_size (Recorded.Plain (Put node start (Whole units.now))) ≤ events.old.spare }
    ensures holds { (pages : List ℕ) × LieOn pages units.now × Holds events.new (Recorded.Plain (recorded_as node start units.now pages extent) ∷ []) }
    ensures room { events.new.room ≡ events.old.room }
{
    let pages = units.content().pages();
    match extent {
        Extent::Put { offset, len } => events.push_put(node, offset, len, pages),
        Extent::End => events.push_cut(node, start + units.len(), pages),
    }
}

// Records a put of a plain call by the extent of its units.
fn record_put(events: &mut Events, node: u64, start: u64, contents: &Contents, extent: Extent)
    requires empty { Holds events.old [] }
    requires spelled { IsSpellableEvent (Recorded.Plain (Put node start contents.now)) }
    requires can { (size : ℕ) × CanBeRecorded size (Put node start contents.now) (Some extent) }
    requires fits { event_size (Recorded.Plain (Put node start contents.now)) ≤ events.old.spare }
    ensures records { (s : Durable) → CanBeRecorded (size_before s.tree (Put node start contents.now)) (Put node start contents.now) (Some extent)
        → HoldsRecordOf s events.new (Recorded.Plain (Put node start contents.now) ∷ []) }
    ensures room { events.new.room ≡ events.old.room }
{
    match contents {
        Contents::Whole(units) => record_units(events, node, start, units, extent),
        // It is required that there are none.
        Contents::Paged { .. } => {}
    }
}

// Records a change of a plain call, and hands it back.
fn record_change(events: &mut Events, change: Change, extent: Option<Extent>) -> Change
    requires empty { Holds events.old [] }
    requires spelled { IsSpellableEvent (Recorded.Plain change) }
    requires can { (size : ℕ) × CanBeRecorded size change extent }
    requires fits { event_size (Recorded.Plain change) ≤ events.old.spare }
    ensures same { result ≡ change }
    ensures records { (s : Durable) → CanBeRecorded (size_before s.tree change) change extent → HoldsRecordOf s events.new (Recorded.Plain change ∷ []) }
    ensures room { events.new.room ≡ events.old.room }
{
    let Some(extent) = extent else {
        return record_as_it_is(events, change);
    };
    if let Change::Put {
        node,
        offset,
        contents,
    } = &change
    {
        record_put(events, *node, *offset, contents, extent);
    }
    change
}

/// Records what a plain call has to record, a put of units by their extent, and hands its plan back.
pub(crate) fn record_plan(events: &mut Events, plan: Plan, extent: Option<Extent>) -> Plan
    requires empty { Holds events.old [] }
    requires spelled { All IsSpellableEvent (events_of None plan.change) }
    requires can { (tree : Tree) × CanBeRecordedIf tree plan.change extent }
    requires fits { sum_by event_size (events_of None plan.change) ≤ events.old.spare }
    ensures same { result ≡ plan }
    ensures records { (s : Durable) → CanBeRecordedIf s.tree plan.change extent → HoldsRecordOf s events.new (events_of None plan.change) }
    ensures room { events.new.room ≡ events.old.room }
{
    let Plan {
        reply,
        change,
        first,
        opened,
    } = plan;
    let change = match change {
        Some(change) => Some(record_change(events, change, extent)),
        None => None,
    };
    Plan {
        reply,
        change,
        first,
        opened,
    }
}
