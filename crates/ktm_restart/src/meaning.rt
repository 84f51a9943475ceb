// What an event means that is recorded with pages.
ghost use Rattle.std.specs.Prelude.{◌≡◌, Some, None, if◌then◌else◌, map, nat_lt, true};
ghost use Rattle.std.specs.List.{list_all};
ghost use Rattle.ktm_paged.specs.Meaning.{begins_file, has_its_pages, has_work_pages, meant as meaning, meant_part, pages_in, size_before};
ghost use Rattle.ktm_restart.specs.Reading.{event_if_paged, is_event_below};
ghost use Rattle.ktm_world.specs.Durable.{changes_in as changes_of_part};
ghost use Rattle.txf_tree.specs.TreeState.{tree_of};

use ktm_base::Items;
use ktm_owners::are_below;
use ktm_paged::{meant, pages_of};
use ktm_waiting::changes_in;
use ktm_world::{Change, Event, Part};
use std::mem::replace;
use txf_tree::Tree;

// Are the pages that a change names among the first so many.
fn is_below(count: usize, change: &Change) -> bool
    ensures { result ≡ list_all (λ page. nat_lt page count) (pages_in change.now) }
{
    are_below(count, pages_of(change))
}

// Are the pages that changes name among the first so many.
fn are_all_below(count: usize, changes: &[Change]) -> bool
    ensures { result ≡ list_all (λ change. list_all (λ page. nat_lt page count) (pages_in change)) changes.now }
{
    changes.iter().all(|change| is_below(count, change))
}

/// Are the pages that an event names among the first so many.
pub(crate) fn is_event_below(count: usize, event: &Event) -> bool
    ensures { result ≡ is_event_below count event.now }
{
    match event {
        Event::Plain { change } => is_below(count, change),
        Event::Ready { part, .. } | Event::Single { part, .. } => {
            are_all_below(count, changes_in(part))
        }
        _ => true,
    }
}

// Does a change put no bytes but from the begin of its file on.
fn begins_file(change: &Change) -> bool
    ensures { result ≡ begins_file change.now }
{
    match change {
        Change::Put { offset, .. } => *offset == 0,
        _ => true,
    }
}

// Makes of a change what it means, in place, where its file is cut to nothing before bytes are put. It answers false where it has not
// its pages, or puts bytes behind the begin of its file; it is then of no use.
fn make_meant(change: &mut Change) -> bool
    ensures has { result ≡ has_work_pages change.old }
    ensures meant { result ≡ true → change.new ≡ meaning 0 change.old }
{
    if !begins_file(change) {
        return false;
    }
    let recorded = replace(change, Change::Drop { node: 0 });
    let Some(meant) = meant(0, recorded) else {
        return false;
    };
    *change = meant;
    true
}

// Makes of changes what they mean, in the same way.
fn make_all_meant(changes: &mut [Change]) -> bool
    ensures has { result ≡ list_all has_work_pages changes.old }
    ensures meant { result ≡ true → changes.new ≡ map (meaning 0) changes.old }
{
    for change in changes.iter_mut() {
        if !make_meant(change) {
            return false;
        }
    }
    true
}

// What a part means, if its changes have their pages.
fn part_meant(part: Part) -> Option<Part>
    ensures { result ≡ (if list_all has_work_pages (changes_of_part part) then Some (meant_part part) else None) }
{
    match part {
        Part::Changes(changes) => {
            let mut changes = changes.into_vec();
            if !make_all_meant(&mut changes) {
                return None;
            }
            Some(Part::Changes(Items::new(changes)))
        }
        part => Some(part),
    }
}

// How many bytes the file of a change has, where that plays a part in what the change means.
fn size_for(tree: &Tree, change: &Change) -> u64
    ensures has { has_its_pages result change.now ≡ has_its_pages (size_before (tree_of tree.now) change.now) change.now }
    ensures meant { meaning result change.now ≡ meaning (size_before (tree_of tree.now) change.now) change.now }
{
    match change {
        Change::Put { node, .. } | Change::Cut { node, .. } => tree.size(*node),
        _ => 0,
    }
}

/// What an event means where these are the committed files, if it has its pages. No page number is copied.
pub(crate) fn event_meant(tree: &Tree, event: Event) -> Option<Event>
    ensures { result ≡ event_if_paged (tree_of tree.now) event }
{
    match event {
        Event::Plain { change } => {
            let size = size_for(tree, &change);
            let change = meant(size, change)?;
            Some(Event::Plain { change })
        }
        Event::Ready { transaction, part } => {
            let part = part_meant(part)?;
            Some(Event::Ready { transaction, part })
        }
        Event::Single { transaction, part } => {
            let part = part_meant(part)?;
            Some(Event::Single { transaction, part })
        }
        event => Some(event),
    }
}
