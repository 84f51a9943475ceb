// Events and groups of events, as bytes.
use ktm_base::NoMemory;
use ktm_codec::read_hex_or_dash;
use ktm_event::{EventFault, read_event, read_group};
use ktm_world::Event;
use std::alloc::Global;

// The bytes that these digits spell.
fn bytes_of(alloc: Global, digits: &str) -> Result<Vec<u8>, NoMemory> {
    match read_hex_or_dash(alloc, digits.as_bytes())? {
        Some(bytes) => Ok(bytes.into_vec()),
        None => Ok(Vec::new(alloc)),
    }
}

fn told_event(
    alloc: Global,
    read: &Result<(Event, usize), EventFault>,
    len: usize,
) -> Result<String, NoMemory> {
    match read {
        Ok((event, end)) if *end == len => Ok(format!(in alloc; "{event:?}")?),
        Ok(_) => Ok(String::from_str(alloc, "bytes behind it")?),
        Err(EventFault::NotAnEvent) => Ok(String::from_str(alloc, "NOT_AN_EVENT")?),
        Err(EventFault::NoMemory) => Err(NoMemory),
    }
}

/// The event that these bytes are, in digits.
pub fn event_of(alloc: Global, digits: &str) -> Result<String, NoMemory> {
    let bytes = bytes_of(alloc, digits)?;
    told_event(alloc, &read_event(alloc, &bytes, 0), bytes.len())
}

fn told_group(alloc: Global, read: &Result<Vec<Event>, EventFault>) -> Result<String, NoMemory> {
    match read {
        Ok(events) => Ok(format!(in alloc; "{events:?}")?),
        Err(EventFault::NotAnEvent) => Ok(String::from_str(alloc, "NOT_A_GROUP")?),
        Err(EventFault::NoMemory) => Err(NoMemory),
    }
}

/// The events of the group that these bytes are, in digits.
pub fn group_of(alloc: Global, digits: &str) -> Result<String, NoMemory> {
    let bytes = bytes_of(alloc, digits)?;
    told_group(alloc, &read_group(alloc, &bytes))
}
