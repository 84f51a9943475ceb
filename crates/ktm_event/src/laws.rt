// Laws of events and groups and their bytes, each but the last the contract of a function that does nothing.
ghost use Rattle.std.specs.Prelude.{◌≡◌, ◌⊎◌, ℕ, All, List, length, Ok, Err};
ghost use Rattle.ktm_base.specs.Bytes.{AreBytes};
ghost use Rattle.ktm_codec.specs.Spans.{OneSpelling, Unambiguous};
ghost use Rattle.ktm_world.specs.EventGrammar.{IsEventOf, IsGroupOf};
ghost use Rattle.ktm_world.specs.Sizes.{event_size, group_size};
ghost use Rattle.ktm_world.specs.declared.event.Event.{Event};
ghost use Rattle.ktm_event.specs.declared.fault.EventFault.{EventFault};
ghost use Rattle.ktm_event.specs.Kept.{EventsState, Holds};
ghost use Rattle.ktm_event.specs.Spelling.{AreSpellableEvents, IsRecordable, IsSpellableEvent};

use crate::EventFault;
use crate::event::{read_event, write_event};
use ktm_world::Event;
use std::alloc::Global;

/// No event's spelling begins another one's, so what is written is read again, whatever follows it. An event has one
/// spelling at most, and what has one can be written.
pub fn law_of_events()
    ensures event { Unambiguous IsEventOf }
    ensures spelling { OneSpelling IsEventOf }
    ensures written { (event : Event) (bytes : List ℕ) → AreBytes bytes → IsEventOf event bytes → IsSpellableEvent event }
    ensures recordable { (event : Event) (bytes : List ℕ) → IsEventOf event bytes → IsRecordable event }
{}

/// Bytes spell one group at most, and a group has one spelling at most, which takes as many bytes as are counted for it. What
/// has one can be written.
pub fn law_of_groups()
    ensures group { (a b : List Event) (bytes : List ℕ) → IsGroupOf a bytes → IsGroupOf b bytes → a ≡ b }
    ensures spelling { OneSpelling IsGroupOf }
    ensures size { (events : List Event) (bytes : List ℕ) → IsGroupOf events bytes → length bytes ≡ group_size events }
    ensures written { (events : List Event) (bytes : List ℕ) → AreBytes bytes → IsGroupOf events bytes → AreSpellableEvents events }
    ensures recordable { (events : List Event) (bytes : List ℕ) → IsGroupOf events bytes → All IsRecordable events }
{}

/// A list of events that is kept as their spellings is one list.
pub fn law_of_kept_events()
    ensures { (state : EventsState) (a b : List Event) → Holds state a → Holds state b → a ≡ b }
{}

/// An event that was written is read again as it was, up to its end, whatever follows it, unless memory runs out.
pub fn law_of_round_trip(
    alloc: Global,
    event: &Event,
    behind: &[u8],
) -> Result<(Event, usize), EventFault>
    requires spellable { IsSpellableEvent event.now }
    requires recordable { IsRecordable event.now }
    ensures { (result ≡ Ok (event.now, event_size event.now)) ⊎ (result ≡ Err EventFault.NoMemory) }
{
    let mut bytes = Vec::new(alloc);
    write_event(&mut bytes, event)?;
    bytes.extend_from_slice(behind)?;
    read_event(alloc, bytes.as_slice(), 0)
}
