// Events that are kept as their spellings, until they are recorded as one group.
ghost use Rattle.std.specs.Prelude.{◌≡◌, ◌↔◌, ◌+◌, ◌*◌, ◌^◌, ◌<◌, ◌≤◌, List, [], ◌∷◌, ◌++◌, take, drop, length, IfOk, IsTrue, vec_len, vec_capacity};
ghost use Rattle.std.specs.Int.{to_le_bytes, w32};
ghost use Rattle.ktm_base.specs.Bytes.{written};
ghost use Rattle.ktm_log.specs.Settle.{IsBodyOf, behind_gate};
ghost use Rattle.ktm_world.specs.EventGrammar.{IsGroupOf};
ghost use Rattle.ktm_world.specs.Sizes.{event_size, frame_size};
ghost use Rattle.ktm_world.specs.declared.event.Event.{Event};
ghost use Rattle.ktm_world.specs.declared.change.Change.TheVariants.{Cut, Put};
ghost use Rattle.ktm_world.specs.declared.change.Contents.TheVariants.{Paged};
ghost use Rattle.ktm_world.specs.declared.event.Event.TheVariants.{Held, Plain};
ghost use Rattle.ktm_event.specs.Kept.{Holds};
ghost use Rattle.ktm_event.specs.Spelling.{AreSpellablePages, IsRecordable, IsSpellableContents, IsSpellableEvent};
ghost use Rattle.ktm_event.specs.Work.{IsRecordableWork, part_of, work_event};

use crate::event::{put_held, put_plain_cut, put_plain_put, put_work, write_event};
use crate::{Stage, Work, WrittenFiles};
use ktm_base::{Id, NoMemory};
use ktm_world::Event;
use std::alloc::Global;
use std::marker::Model;

/// A list of events, kept as the body of a frame of the log: the length of the payload, the payload of their group, and a
/// closed gate. Its room is reserved when it is made, and is counted in bytes of the events' spellings.
#[derive(Drop)]
pub struct Events {
    bytes: Vec<u8>,
    count: u32,
    room: usize,
}

impl Model for Events {
    ghost use Rattle.std.specs.Prelude.{◌+◌, ◌-◌, length, vec_capacity};
    ghost use Rattle.ktm_event.specs.Kept.{EventsState, IsBodyKept, payload_of};

    ghost Value = { EventsState };

    ghost view = { λ e. record { payload = payload_of e.bytes.items; count = e.count; room = e.room; spare = e.room + 9 - length e.bytes.items; capacity = vec_capacity e.bytes } };

    ghost invariant = { λ e. IsBodyKept e.bytes.items e.count e.room (vec_capacity e.bytes) };
}

// Writes a number over four bytes.
fn set_u32(bytes: &mut Vec<u8>, at: usize, value: u32)
    requires { at + 4 ≤ vec_len bytes.old }
    ensures items { bytes.new.items ≡ written bytes.old.items at (to_le_bytes w32 value) }
    ensures len { vec_len bytes.new ≡ vec_len bytes.old }
    ensures room { vec_capacity bytes.new ≡ vec_capacity bytes.old }
{
    bytes[at..at + 4].copy_from_slice(&value.to_le_bytes());
}

// Takes the closed gate away, so that an event can be added.
fn open(bytes: &mut Vec<u8>)
    requires { 1 ≤ vec_len bytes.old }
    ensures items { bytes.new.items ≡ take (vec_len bytes.new) bytes.old.items }
    ensures len { vec_len bytes.new + 1 ≡ vec_len bytes.old }
    ensures room { vec_capacity bytes.new ≡ vec_capacity bytes.old }
{
    bytes.truncate(bytes.len() - 1);
}

// Writes the closed gate behind so many events, and the two numbers before them.
fn close(bytes: &mut Vec<u8>, count: u32)
    requires there { 8 ≤ vec_len bytes.old }
    requires small { vec_len bytes.old < 2 ^ 32 + 4 }
    requires room { vec_len bytes.old + 1 ≤ vec_capacity bytes.old }
    ensures items { bytes.new.items ≡ behind_gate (to_le_bytes w32 count ++ drop 8 bytes.old.items) }
    ensures len { vec_len bytes.new ≡ vec_len bytes.old + 1 }
    ensures room { vec_capacity bytes.old ≤ vec_capacity bytes.new }
{
    let size = (bytes.len() - 4) as u32;
    bytes.push_reserved(0);
    set_u32(bytes, 0, size);
    set_u32(bytes, 4, count);
}

impl Events {
    /// No events, with room for so many bytes of them.
    pub fn new(alloc: Global, room: usize) -> Result<Events, NoMemory>
        requires { room + 4 < 2 ^ 32 }
        ensures empty { IfOk result (λ events. Holds events []) }
        ensures room { IfOk result (λ events. events.room ≡ room) }
    {
        let buffer = Vec::with_capacity(alloc, room + 9)?;
        Ok(Events::with_buffer(buffer, room))
    }

    /// No events, in this buffer, which has memory for the room and for nine bytes of the frame besides. What it held is
    /// lost.
    pub fn with_buffer(buffer: Vec<u8>, room: usize) -> Events
        requires reserved { room + 9 ≤ vec_capacity buffer }
        requires few { room + 4 < 2 ^ 32 }
        ensures empty { Holds result [] }
        ensures room { result.room ≡ room }
        ensures capacity { vec_capacity buffer ≤ result.capacity }
    {
        let mut bytes = buffer;
        bytes.clear();
        bytes.extend_from_slice(&[0; 8]).unwrap();
        close(&mut bytes, 0);
        Events {
            bytes,
            count: 0,
            room,
        }
    }

    /// The buffer, for other bytes. The events are lost.
    pub fn into_buffer(self) -> Vec<u8>
        ensures room { self.room + 9 ≤ vec_capacity result }
        ensures capacity { vec_capacity result ≡ self.capacity }
    {
        let Events { bytes, .. } = self;
        bytes
    }

    pub fn is_empty(&self) -> bool
        ensures count { IsTrue result ↔ (self.now.count ≡ 0) }
        ensures events { (events : List Event) → Holds self.now events → IsTrue result ↔ (events ≡ []) }
    {
        self.count == 0
    }

    /// How many events there are.
    pub fn len(&self) -> u32
        ensures count { result ≡ self.now.count }
        ensures events { (events : List Event) → Holds self.now events → result ≡ length events }
        ensures least { 5 * result + 4 ≤ length self.now.payload }
    {
        self.count
    }

    /// How many bytes more of events there is room for.
    pub fn spare(&self) -> usize
        ensures spare { result ≡ self.now.spare }
        ensures small { result < 2 ^ 32 }
    {
        self.room + 9 - self.bytes.len()
    }

    /// Adds an event at the end.
    pub fn push(&mut self, event: &Event)
        requires spellable { IsSpellableEvent event.now }
        requires recordable { IsRecordable event.now }
        requires fits { event_size event.now ≤ self.old.spare }
        ensures adds { (events : List Event) → Holds self.old events → Holds self.new (events ++ event.now ∷ []) }
        ensures spare { self.new.spare + event_size event.now ≡ self.old.spare }
        ensures room { self.new.room ≡ self.old.room }
        ensures capacity { self.old.capacity ≤ self.new.capacity }
    {
        open(&mut self.bytes);
        write_event(&mut self.bytes, event).unwrap();
        self.count += 1;
        close(&mut self.bytes, self.count);
    }

    /// Adds a plain put of so many bytes at an offset of a file, on the pages of all units that it touches.
    pub fn push_put(&mut self, node: u64, offset: u64, len: u32, pages: &[u32])
        requires spellable { IsSpellableContents (Paged len pages.now) }
        requires fits { event_size (Plain (Put node offset (Paged len pages.now))) ≤ self.old.spare }
        ensures adds { (events : List Event) → Holds self.old events
            → Holds self.new (events ++ Plain (Put node offset (Paged len pages.now)) ∷ []) }
        ensures spare { self.new.spare + event_size (Plain (Put node offset (Paged len pages.now))) ≡ self.old.spare }
        ensures room { self.new.room ≡ self.old.room }
        ensures capacity { self.old.capacity ≤ self.new.capacity }
    {
        open(&mut self.bytes);
        put_plain_put(&mut self.bytes, node, offset, len, pages).unwrap();
        self.count += 1;
        close(&mut self.bytes, self.count);
    }

    /// Adds that a file has so many bytes from a plain call on, and the pages of the units from that of its old end on, where
    /// it becomes longer.
    pub fn push_cut(&mut self, node: u64, size: u64, pages: &[u32])
        requires spellable { AreSpellablePages pages.now }
        requires fits { event_size (Plain (Cut node size pages.now)) ≤ self.old.spare }
        ensures adds { (events : List Event) → Holds self.old events → Holds self.new (events ++ Plain (Cut node size pages.now) ∷ []) }
        ensures spare { self.new.spare + event_size (Plain (Cut node size pages.now)) ≡ self.old.spare }
        ensures room { self.new.room ≡ self.old.room }
        ensures capacity { self.old.capacity ≤ self.new.capacity }
    {
        open(&mut self.bytes);
        put_plain_cut(&mut self.bytes, node, size, pages).unwrap();
        self.count += 1;
        close(&mut self.bytes, self.count);
    }

    /// Adds what a participant has to record of a transaction's work.
    pub fn push_work<F: WrittenFiles>(&mut self, stage: Stage, transaction: Id, work: Work<'_, F>)
        requires spellable { IsSpellableEvent (work_event stage transaction (part_of F.files work)) }
        requires recordable { IsRecordableWork work }
        requires fits { event_size (work_event stage transaction (part_of F.files work)) ≤ self.old.spare }
        ensures adds { (events : List Event) → Holds self.old events
            → Holds self.new (events ++ work_event stage transaction (part_of F.files work.entry) ∷ []) }
        ensures spare { self.new.spare + event_size (work_event stage transaction (part_of F.files work.entry)) ≡ self.old.spare }
        ensures room { self.new.room ≡ self.old.room }
        ensures capacity { self.old.capacity ≤ self.new.capacity }
    {
        open(&mut self.bytes);
        put_work(&mut self.bytes, stage, transaction, work).unwrap();
        self.count += 1;
        close(&mut self.bytes, self.count);
    }

    /// Adds the event of a superior that has prepared its transaction, with its recovery information.
    pub fn push_held(&mut self, transaction: Id, enlistment: Id, manager: Id, information: &[u8])
        requires spellable { IsSpellableEvent (Held transaction enlistment manager information.now) }
        requires fits { event_size (Held transaction enlistment manager information.now) ≤ self.old.spare }
        ensures adds { (events : List Event) → Holds self.old events
            → Holds self.new (events ++ Held transaction enlistment manager information.now ∷ []) }
        ensures spare { self.new.spare + event_size (Held transaction enlistment manager information.now) ≡ self.old.spare }
        ensures room { self.new.room ≡ self.old.room }
        ensures capacity { self.old.capacity ≤ self.new.capacity }
    {
        open(&mut self.bytes);
        put_held(
            &mut self.bytes,
            transaction,
            enlistment,
            manager,
            information,
        )
        .unwrap();
        self.count += 1;
        close(&mut self.bytes, self.count);
    }

    /// Takes all events out. The room stays reserved.
    pub fn clear(&mut self)
        ensures empty { Holds self.new [] }
        ensures room { self.new.room ≡ self.old.room }
        ensures capacity { self.old.capacity ≤ self.new.capacity }
    {
        self.bytes.truncate(8);
        self.count = 0;
        close(&mut self.bytes, 0);
    }

    /// The body of the frame of its events' group, where there are some.
    pub fn body(&self) -> &[u8]
        ensures body { IsBodyOf self.now.payload result.now }
        ensures size { (events : List Event) → Holds self.now events → length result.now ≡ frame_size events }
        ensures group { (events : List Event) → Holds self.now events → 1 ≤ length events → IsGroupOf events self.now.payload }
    {
        self.bytes.as_slice()
    }
}
