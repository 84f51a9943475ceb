// Parts, each a tag and an enlistment or a list, and who is done.
ghost use Rattle.std.specs.Prelude.{◌≡◌, ◌+◌, ◌<◌, ◌≤◌, All, sum_by, OnErr, OnOk, vec_len, vec_capacity};
ghost use Rattle.ktm_codec.specs.Spans.{Adds};
ghost use Rattle.ktm_world.specs.EventGrammar.{IsDoneOf, IsPartOf, IsRecordOf, IsSoleOf};
ghost use Rattle.ktm_world.specs.Sizes.{change_size, done_size, part_size, record_size, setting_size};
ghost use Rattle.ktm_world.specs.declared.event.Part.TheVariants.{Changes, Enlistment, Settings};
ghost use Rattle.ktm_event.specs.Reading.{Gives, IsRecordedOf};
ghost use Rattle.ktm_event.specs.Spelling.{AreSpellableChanges, AreSpellableSettings, IsRecordableChange, IsRecordablePart, IsSpellableDone, IsSpellablePart, IsSpellableRecord};
ghost use Rattle.ktm_event.specs.Work.{changes_of};

use crate::change::{changes_at, put_changes};
use crate::field::{id_at, information_at, put_id, tag_at};
use crate::files::put_names_and_files;
use crate::setting::{put_settings, settings_at};
use crate::{EventFault, WrittenFiles};
use ktm_base::{Bytes, Id, NoMemory};
use ktm_codec::{put_text, put_u8};
use ktm_world::{Change, DonePart, Part, Setting};
use std::alloc::Global;

const ENLISTMENT: u8 = 1;

const CHANGES: u8 = 2;

const SETTINGS: u8 = 3;

/// The enlistment at a place, its resource manager and its recovery information, and the place behind them.
pub fn record_at(
    alloc: Global,
    bytes: &[u8],
    at: usize,
) -> Result<((Id, Id, Bytes), usize), EventFault>
    ensures { Gives IsRecordedOf bytes.now at result }
{
    let (enlistment, after) = id_at(bytes, at)?;
    let (manager, after) = id_at(bytes, after)?;
    let (information, end) = information_at(alloc, bytes, after)?;
    Ok(((enlistment, manager, information), end))
}

/// The part at a place, and the place behind it.
pub fn part_at(alloc: Global, bytes: &[u8], at: usize) -> Result<(Part, usize), EventFault>
    ensures { Gives IsPartOf bytes.now at result }
{
    let (tag, after) = tag_at(bytes, at)?;
    match tag {
        ENLISTMENT => {
            let ((enlistment, manager, information), end) = record_at(alloc, bytes, after)?;
            let part = Part::Enlistment {
                enlistment,
                manager,
                information,
            };
            Ok((part, end))
        }
        CHANGES => {
            let (changes, end) = changes_at(alloc, bytes, after)?;
            Ok((Part::Changes(changes), end))
        }
        SETTINGS => {
            let (settings, end) = settings_at(alloc, bytes, after)?;
            Ok((Part::Settings(settings), end))
        }
        _ => Err(EventFault::NotAnEvent),
    }
}

// The part of a transaction that has this one alone: no enlistment's.
pub(crate) fn sole_at(alloc: Global, bytes: &[u8], at: usize) -> Result<(Part, usize), EventFault>
    ensures { Gives IsSoleOf bytes.now at result }
{
    let (part, end) = part_at(alloc, bytes, at)?;
    if let Part::Enlistment { .. } = part {
        return Err(EventFault::NotAnEvent);
    }
    Ok((part, end))
}

pub(crate) fn done_at(bytes: &[u8], at: usize) -> Result<(DonePart, usize), EventFault>
    ensures { Gives IsDoneOf bytes.now at result }
{
    let (tag, after) = tag_at(bytes, at)?;
    match tag {
        ENLISTMENT => {
            let (enlistment, end) = id_at(bytes, after)?;
            Ok((DonePart::Enlistment(enlistment), end))
        }
        CHANGES => Ok((DonePart::Files, after)),
        SETTINGS => Ok((DonePart::Keys, after)),
        _ => Err(EventFault::NotAnEvent),
    }
}

// Each function below writes at the end, and takes no memory where there is room for what it writes.

/// Writes an enlistment, its resource manager and its recovery information at the end. It takes no memory where there is
/// room for them, and where memory is not to be had a front of them may have been written.
pub fn put_record(
    out: &mut Vec<u8>,
    enlistment: Id,
    manager: Id,
    information: &[u8],
) -> Result<(), NoMemory>
    requires { IsSpellableRecord enlistment manager information.now }
    ensures adds { OnOk result (Adds (IsRecordOf enlistment manager information.now) out.old.items out.new.items) }
    ensures len { OnOk result (vec_len out.new ≡ vec_len out.old + record_size information.now) }
    ensures room { vec_capacity out.old ≤ vec_capacity out.new }
    ensures full { OnErr result (vec_capacity out.old < vec_len out.old + record_size information.now) }
{
    out.reserve(17 + information.len())?;
    put_id(out, enlistment);
    put_id(out, manager);
    put_text(out, information);
    Ok(())
}

/// Writes the part of an enlistment at the end. It takes no memory where there is room for it, and where memory is not to be
/// had a front of it may have been written.
pub fn put_enlistment(
    out: &mut Vec<u8>,
    enlistment: Id,
    manager: Id,
    information: &[u8],
) -> Result<(), NoMemory>
    requires { IsSpellableRecord enlistment manager information.now }
    ensures adds { OnOk result (Adds (IsPartOf (Enlistment enlistment manager information.now)) out.old.items out.new.items) }
    ensures len { OnOk result (vec_len out.new ≡ vec_len out.old + 1 + record_size information.now) }
    ensures room { vec_capacity out.old ≤ vec_capacity out.new }
    ensures full { OnErr result (vec_capacity out.old < vec_len out.old + 1 + record_size information.now) }
{
    out.push(ENLISTMENT)?;
    put_record(out, enlistment, manager, information)
}

/// Writes the part of the files at the end: changes of names, and behind them the files that were written. It
/// takes no memory where there is room for it, and where memory is not to be had a front of it may have been written.
pub fn put_names_and_files_part<F: WrittenFiles>(
    out: &mut Vec<u8>,
    names: &[Change],
    files: &F,
) -> Result<(), NoMemory>
    requires spellable { AreSpellableChanges (changes_of names.now (F.files files.now)) }
    requires recordable { All IsRecordableChange names.now }
    ensures adds { OnOk result (Adds (IsPartOf (Changes (changes_of names.now (F.files files.now)))) out.old.items out.new.items) }
    ensures len { OnOk result (vec_len out.new ≡ vec_len out.old + 5 + sum_by change_size (changes_of names.now (F.files files.now))) }
    ensures room { vec_capacity out.old ≤ vec_capacity out.new }
    ensures full { OnErr result (vec_capacity out.old < vec_len out.old + 5 + sum_by change_size (changes_of names.now (F.files files.now))) }
{
    out.push(CHANGES)?;
    put_names_and_files(out, names, files)
}

fn put_changes_part(out: &mut Vec<u8>, changes: &[Change]) -> Result<(), NoMemory>
    requires spellable { AreSpellableChanges changes.now }
    requires recordable { All IsRecordableChange changes.now }
    ensures adds { OnOk result (Adds (IsPartOf (Changes changes.now)) out.old.items out.new.items) }
    ensures len { OnOk result (vec_len out.new ≡ vec_len out.old + 5 + sum_by change_size changes.now) }
    ensures room { vec_capacity out.old ≤ vec_capacity out.new }
    ensures full { OnErr result (vec_capacity out.old < vec_len out.old + 5 + sum_by change_size changes.now) }
{
    out.push(CHANGES)?;
    put_changes(out, changes)
}

/// Writes the part of the keys at the end. It takes no memory where there is room for it, and where memory is not to be had a
/// front of it may have been written.
pub fn put_settings_part(out: &mut Vec<u8>, settings: &[Setting]) -> Result<(), NoMemory>
    requires { AreSpellableSettings settings.now }
    ensures adds { OnOk result (Adds (IsPartOf (Settings settings.now)) out.old.items out.new.items) }
    ensures len { OnOk result (vec_len out.new ≡ vec_len out.old + 5 + sum_by setting_size settings.now) }
    ensures room { vec_capacity out.old ≤ vec_capacity out.new }
    ensures full { OnErr result (vec_capacity out.old < vec_len out.old + 5 + sum_by setting_size settings.now) }
{
    out.push(SETTINGS)?;
    put_settings(out, settings)
}

/// Writes the part at the end. It takes no memory where there is room for it, and where memory is not to be had a front of it
/// may have been written.
pub fn put_part(out: &mut Vec<u8>, part: &Part) -> Result<(), NoMemory>
    requires spellable { IsSpellablePart part.now }
    requires recordable { IsRecordablePart part.now }
    ensures adds { OnOk result (Adds (IsPartOf part.now) out.old.items out.new.items) }
    ensures len { OnOk result (vec_len out.new ≡ vec_len out.old + part_size part.now) }
    ensures room { vec_capacity out.old ≤ vec_capacity out.new }
    ensures full { OnErr result (vec_capacity out.old < vec_len out.old + part_size part.now) }
{
    match part {
        Part::Enlistment {
            enlistment,
            manager,
            information,
        } => put_enlistment(out, *enlistment, *manager, information.as_slice()),
        Part::Changes(changes) => put_changes_part(out, changes.as_slice()),
        Part::Settings(settings) => put_settings_part(out, settings.as_slice()),
    }
}

fn done_size(done: DonePart) -> usize
    ensures { result ≡ done_size done }
{
    match done {
        DonePart::Enlistment(_) => 9,
        DonePart::Files | DonePart::Keys => 1,
    }
}

pub(crate) fn put_done(out: &mut Vec<u8>, done: DonePart) -> Result<(), NoMemory>
    requires { IsSpellableDone done }
    ensures adds { OnOk result (Adds (IsDoneOf done) out.old.items out.new.items) }
    ensures len { OnOk result (vec_len out.new ≡ vec_len out.old + done_size done) }
    ensures room { vec_capacity out.old ≤ vec_capacity out.new }
    ensures full { OnErr result (vec_capacity out.old < vec_len out.old + done_size done) }
{
    out.reserve(done_size(done))?;
    match done {
        DonePart::Enlistment(enlistment) => {
            put_u8(out, ENLISTMENT);
            put_id(out, enlistment);
        }
        DonePart::Files => put_u8(out, CHANGES),
        DonePart::Keys => put_u8(out, SETTINGS),
    }
    Ok(())
}
