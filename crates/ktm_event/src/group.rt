// Groups of events, each the payload of one frame of the log.
ghost use Rattle.std.specs.Prelude.{◌≡◌, List, Err, IfOk};
ghost use Rattle.ktm_world.specs.EventGrammar.{IsGroupOf};
ghost use Rattle.ktm_world.specs.declared.event.Event.{Event};
ghost use Rattle.ktm_event.specs.declared.fault.EventFault.{EventFault};

use crate::EventFault;
use crate::event::read_event;
use crate::field::count_at;
use ktm_world::Event;
use std::alloc::Global;

/// The events of a group, of which there is one at least. They fill the payload.
pub fn read_group(alloc: Global, payload: &[u8]) -> Result<Vec<Event>, EventFault>
    ensures ok { IfOk result (λ events. IsGroupOf events.items payload.now) }
    ensures bad { result ≡ Err EventFault.NotAnEvent → (events : List Event) → ¬ IsGroupOf events payload.now }
{
    let (count, start) = count_at(payload, 0)?;
    let mut events = Vec::new(alloc);
    let mut end = start;
    'events: for _ in 0..count {
        let (event, next) = read_event(alloc, payload, end)?;
        events.push(event)?;
        end = next;
    }
    if count == 0 || end != payload.len() {
        return Err(EventFault::NotAnEvent);
    }
    Ok(events)
}
