// Events, each a tag and its fields.
ghost use Rattle.std.specs.Prelude.{◌≡◌, ◌+◌, ◌<◌, ◌≤◌, OnErr, OnOk, vec_len, vec_capacity};
ghost use Rattle.ktm_base.specs.Grammar.{Tagged};
ghost use Rattle.ktm_codec.specs.Spans.{Adds};
ghost use Rattle.ktm_world.specs.EventGrammar.{IsEventOf, IsIdOf};
ghost use Rattle.ktm_world.specs.Sizes.{change_size, done_size, event_size, part_size, record_size};
ghost use Rattle.ktm_world.specs.declared.change.Change.TheVariants.{Cut, Put};
ghost use Rattle.ktm_world.specs.declared.change.Contents.TheVariants.{Paged};
ghost use Rattle.ktm_world.specs.declared.event.Event.{Event};
ghost use Rattle.ktm_world.specs.declared.event.Event.TheVariants.{Boot, Held, Plain, Ready, Single};
ghost use Rattle.ktm_event.specs.Reading.{Behind, Gives};
ghost use Rattle.ktm_event.specs.Spelling.{AreSpellablePages, IsRecordable, IsRecordableChange, IsRecordablePart, IsSpellableChange, IsSpellableContents, IsSpellableDone, IsSpellableEvent, IsSpellableId, IsSpellablePart, IsSpellableRecord, IsSpellableSole};
ghost use Rattle.ktm_event.specs.Work.{IsRecordableWork, part_of, work_event};

use crate::change::{change_at, put_change, put_cut, put_paged};
use crate::field::{count_at, id_at, put_id, tag_at};
use crate::part::{
    done_at, part_at, put_done, put_enlistment, put_names_and_files_part, put_part, put_record,
    put_settings_part, record_at, sole_at,
};
use crate::{EventFault, Stage, Work, WrittenFiles};
use ktm_base::{Id, NoMemory};
use ktm_codec::{put_u8, put_u32};
use ktm_world::{Change, DonePart, Event, Part};
use std::alloc::Global;

const BOOT: u8 = 1;

const MADE_RM: u8 = 2;

const PLAIN: u8 = 3;

pub(crate) const READY: u8 = 4;

pub(crate) const SINGLE: u8 = 5;

const HELD: u8 = 6;

const DECIDE: u8 = 7;

const UNDO: u8 = 8;

const DONE: u8 = 9;

// Each of these reads the fields of an event, behind its tag.

fn boot_at(bytes: &[u8], at: usize) -> Result<(Event, usize), EventFault>
    ensures { Gives (Behind IsEventOf 1) bytes.now at result }
{
    let (boot, end) = count_at(bytes, at)?;
    Ok((Event::Boot { boot }, end))
}

fn made_rm_at(bytes: &[u8], at: usize) -> Result<(Event, usize), EventFault>
    ensures { Gives (Behind IsEventOf 2) bytes.now at result }
{
    let (manager, end) = id_at(bytes, at)?;
    Ok((Event::MadeRm { manager }, end))
}

fn plain_at(alloc: Global, bytes: &[u8], at: usize) -> Result<(Event, usize), EventFault>
    ensures { Gives (Behind IsEventOf 3) bytes.now at result }
{
    let (change, end) = change_at(alloc, bytes, at)?;
    Ok((Event::Plain { change }, end))
}

fn ready_at(alloc: Global, bytes: &[u8], at: usize) -> Result<(Event, usize), EventFault>
    ensures { Gives (Behind IsEventOf 4) bytes.now at result }
{
    let (transaction, after) = id_at(bytes, at)?;
    let (part, end) = part_at(alloc, bytes, after)?;
    Ok((Event::Ready { transaction, part }, end))
}

fn single_at(alloc: Global, bytes: &[u8], at: usize) -> Result<(Event, usize), EventFault>
    ensures { Gives (Behind IsEventOf 5) bytes.now at result }
{
    let (transaction, after) = id_at(bytes, at)?;
    let (part, end) = sole_at(alloc, bytes, after)?;
    Ok((Event::Single { transaction, part }, end))
}

fn held_at(alloc: Global, bytes: &[u8], at: usize) -> Result<(Event, usize), EventFault>
    ensures { Gives (Behind IsEventOf 6) bytes.now at result }
{
    let (transaction, after) = id_at(bytes, at)?;
    let ((enlistment, manager, information), end) = record_at(alloc, bytes, after)?;
    let event = Event::Held {
        transaction,
        enlistment,
        manager,
        information,
    };
    Ok((event, end))
}

fn decide_at(bytes: &[u8], at: usize) -> Result<(Event, usize), EventFault>
    ensures { Gives (Behind IsEventOf 7) bytes.now at result }
{
    let (transaction, end) = id_at(bytes, at)?;
    Ok((Event::Decide { transaction }, end))
}

fn undo_at(bytes: &[u8], at: usize) -> Result<(Event, usize), EventFault>
    ensures { Gives (Behind IsEventOf 8) bytes.now at result }
{
    let (transaction, end) = id_at(bytes, at)?;
    Ok((Event::Undo { transaction }, end))
}

fn finished_at(bytes: &[u8], at: usize) -> Result<(Event, usize), EventFault>
    ensures { Gives (Behind IsEventOf 9) bytes.now at result }
{
    let (transaction, after) = id_at(bytes, at)?;
    let (done, end) = done_at(bytes, after)?;
    Ok((Event::Done { transaction, done }, end))
}

/// The event at a place of the bytes, and the place behind it.
pub fn read_event(alloc: Global, bytes: &[u8], at: usize) -> Result<(Event, usize), EventFault>
    ensures { Gives IsEventOf bytes.now at result }
{
    let (tag, after) = tag_at(bytes, at)?;
    match tag {
        BOOT => boot_at(bytes, after),
        MADE_RM => made_rm_at(bytes, after),
        PLAIN => plain_at(alloc, bytes, after),
        READY => ready_at(alloc, bytes, after),
        SINGLE => single_at(alloc, bytes, after),
        HELD => held_at(alloc, bytes, after),
        DECIDE => decide_at(bytes, after),
        UNDO => undo_at(bytes, after),
        DONE => finished_at(bytes, after),
        _ => Err(EventFault::NotAnEvent),
    }
}

// Each function below writes at the end, and takes no memory where there is room for what it writes.

fn put_boot(out: &mut Vec<u8>, boot: u32) -> Result<(), NoMemory>
    ensures adds { OnOk result (Adds (IsEventOf (Boot boot)) out.old.items out.new.items) }
    ensures len { OnOk result (vec_len out.new ≡ vec_len out.old + 5) }
    ensures room { vec_capacity out.old ≤ vec_capacity out.new }
    ensures full { OnErr result (vec_capacity out.old < vec_len out.old + 5) }
{
    out.reserve(5)?;
    put_u8(out, BOOT);
    put_u32(out, boot);
    Ok(())
}

// A tag and the Id behind it.
fn put_tagged_id(out: &mut Vec<u8>, tag: u8, id: Id) -> Result<(), NoMemory>
    requires { IsSpellableId id }
    ensures adds { OnOk result (Adds (Tagged tag (IsIdOf id)) out.old.items out.new.items) }
    ensures len { OnOk result (vec_len out.new ≡ vec_len out.old + 9) }
    ensures room { vec_capacity out.old ≤ vec_capacity out.new }
    ensures full { OnErr result (vec_capacity out.old < vec_len out.old + 9) }
{
    out.reserve(9)?;
    put_u8(out, tag);
    put_id(out, id);
    Ok(())
}

fn put_plain(out: &mut Vec<u8>, change: &Change) -> Result<(), NoMemory>
    requires spellable { IsSpellableChange change.now }
    requires recordable { IsRecordableChange change.now }
    ensures adds { OnOk result (Adds (IsEventOf (Plain change.now)) out.old.items out.new.items) }
    ensures len { OnOk result (vec_len out.new ≡ vec_len out.old + 1 + change_size change.now) }
    ensures room { vec_capacity out.old ≤ vec_capacity out.new }
    ensures full { OnErr result (vec_capacity out.old < vec_len out.old + 1 + change_size change.now) }
{
    out.push(PLAIN)?;
    put_change(out, change)
}

// A plain put of so many bytes, on their pages.
pub(crate) fn put_plain_put(
    out: &mut Vec<u8>,
    node: u64,
    offset: u64,
    len: u32,
    pages: &[u32],
) -> Result<(), NoMemory>
    requires { IsSpellableContents (Paged len pages.now) }
    ensures adds { OnOk result (Adds (IsEventOf (Plain (Put node offset (Paged len pages.now)))) out.old.items out.new.items) }
    ensures len { OnOk result (vec_len out.new ≡ vec_len out.old + event_size (Plain (Put node offset (Paged len pages.now)))) }
    ensures room { vec_capacity out.old ≤ vec_capacity out.new }
    ensures full { OnErr result (vec_capacity out.old < vec_len out.old + event_size (Plain (Put node offset (Paged len pages.now)))) }
{
    out.push(PLAIN)?;
    put_paged(out, node, offset, len, pages)
}

// A plain cut, with the pages of what a file becomes longer by.
pub(crate) fn put_plain_cut(
    out: &mut Vec<u8>,
    node: u64,
    size: u64,
    pages: &[u32],
) -> Result<(), NoMemory>
    requires { AreSpellablePages pages.now }
    ensures adds { OnOk result (Adds (IsEventOf (Plain (Cut node size pages.now))) out.old.items out.new.items) }
    ensures len { OnOk result (vec_len out.new ≡ vec_len out.old + event_size (Plain (Cut node size pages.now))) }
    ensures room { vec_capacity out.old ≤ vec_capacity out.new }
    ensures full { OnErr result (vec_capacity out.old < vec_len out.old + event_size (Plain (Cut node size pages.now))) }
{
    out.push(PLAIN)?;
    put_cut(out, node, size, pages)
}

fn put_ready(out: &mut Vec<u8>, transaction: Id, part: &Part) -> Result<(), NoMemory>
    requires transaction { IsSpellableId transaction }
    requires part { IsSpellablePart part.now }
    requires recordable { IsRecordablePart part.now }
    ensures adds { OnOk result (Adds (IsEventOf (Ready transaction part.now)) out.old.items out.new.items) }
    ensures len { OnOk result (vec_len out.new ≡ vec_len out.old + 9 + part_size part.now) }
    ensures room { vec_capacity out.old ≤ vec_capacity out.new }
    ensures full { OnErr result (vec_capacity out.old < vec_len out.old + 9 + part_size part.now) }
{
    put_tagged_id(out, READY, transaction)?;
    put_part(out, part)
}

fn put_single(out: &mut Vec<u8>, transaction: Id, part: &Part) -> Result<(), NoMemory>
    requires transaction { IsSpellableId transaction }
    requires part { IsSpellableSole part.now }
    requires recordable { IsRecordablePart part.now }
    ensures adds { OnOk result (Adds (IsEventOf (Single transaction part.now)) out.old.items out.new.items) }
    ensures len { OnOk result (vec_len out.new ≡ vec_len out.old + 9 + part_size part.now) }
    ensures room { vec_capacity out.old ≤ vec_capacity out.new }
    ensures full { OnErr result (vec_capacity out.old < vec_len out.old + 9 + part_size part.now) }
{
    put_tagged_id(out, SINGLE, transaction)?;
    put_part(out, part)
}

pub(crate) fn put_held(
    out: &mut Vec<u8>,
    transaction: Id,
    enlistment: Id,
    manager: Id,
    information: &[u8],
) -> Result<(), NoMemory>
    requires transaction { IsSpellableId transaction }
    requires superior { IsSpellableRecord enlistment manager information.now }
    ensures adds { OnOk result (Adds (IsEventOf (Held transaction enlistment manager information.now)) out.old.items out.new.items) }
    ensures len { OnOk result (vec_len out.new ≡ vec_len out.old + 9 + record_size information.now) }
    ensures room { vec_capacity out.old ≤ vec_capacity out.new }
    ensures full { OnErr result (vec_capacity out.old < vec_len out.old + 9 + record_size information.now) }
{
    put_tagged_id(out, HELD, transaction)?;
    put_record(out, enlistment, manager, information)
}

fn put_finished(out: &mut Vec<u8>, transaction: Id, done: DonePart) -> Result<(), NoMemory>
    requires transaction { IsSpellableId transaction }
    requires done { IsSpellableDone done }
    ensures adds { OnOk result (Adds (IsEventOf (Event.Done transaction done)) out.old.items out.new.items) }
    ensures len { OnOk result (vec_len out.new ≡ vec_len out.old + 9 + done_size done) }
    ensures room { vec_capacity out.old ≤ vec_capacity out.new }
    ensures full { OnErr result (vec_capacity out.old < vec_len out.old + 9 + done_size done) }
{
    put_tagged_id(out, DONE, transaction)?;
    put_done(out, done)
}

// What a participant has to record of a transaction's work.
pub(crate) fn put_work<F: WrittenFiles>(
    out: &mut Vec<u8>,
    stage: Stage,
    transaction: Id,
    work: Work<'_, F>,
) -> Result<(), NoMemory>
    requires spellable { IsSpellableEvent (work_event stage transaction (part_of F.files work)) }
    requires recordable { IsRecordableWork work }
    ensures adds { OnOk result (Adds (IsEventOf (work_event stage transaction (part_of F.files work.entry))) out.old.items out.new.items) }
    ensures len { OnOk result (vec_len out.new ≡ vec_len out.old + event_size (work_event stage transaction (part_of F.files work.entry))) }
    ensures room { vec_capacity out.old ≤ vec_capacity out.new }
    ensures full { OnErr result (vec_capacity out.old < vec_len out.old + event_size (work_event stage transaction (part_of F.files work.entry))) }
{
    put_tagged_id(out, stage.tag(), transaction)?;
    match work {
        Work::Changes { names, files } => put_names_and_files_part(out, names, files),
        Work::Settings(settings) => put_settings_part(out, settings),
        Work::Enlistment {
            enlistment,
            manager,
            information,
        } => put_enlistment(out, enlistment, manager, information),
    }
}

/// Writes the spelling of the event at the end. Where memory is not to be had, a front of it may have been written.
pub fn write_event(out: &mut Vec<u8>, event: &Event) -> Result<(), NoMemory>
    requires spellable { IsSpellableEvent event.now }
    requires recordable { IsRecordable event.now }
    ensures adds { OnOk result (Adds (IsEventOf event.now) out.old.items out.new.items) }
    ensures len { OnOk result (vec_len out.new ≡ vec_len out.old + event_size event.now) }
    ensures room { vec_capacity out.old ≤ vec_capacity out.new }
    ensures full { OnErr result (vec_capacity out.old < vec_len out.old + event_size event.now) }
{
    match event {
        Event::Boot { boot } => put_boot(out, *boot),
        Event::MadeRm { manager } => put_tagged_id(out, MADE_RM, *manager),
        Event::Plain { change } => put_plain(out, change),
        Event::Ready { transaction, part } => put_ready(out, *transaction, part),
        Event::Single { transaction, part } => put_single(out, *transaction, part),
        Event::Held {
            transaction,
            enlistment,
            manager,
            information,
        } => put_held(
            out,
            *transaction,
            *enlistment,
            *manager,
            information.as_slice(),
        ),
        Event::Decide { transaction } => put_tagged_id(out, DECIDE, *transaction),
        Event::Undo { transaction } => put_tagged_id(out, UNDO, *transaction),
        Event::Done { transaction, done } => put_finished(out, *transaction, *done),
    }
}
