// The parts of a transaction that is not over.
ghost use Rattle.std.specs.Prelude.{◌≡◌, ◌<◌, ◌≤◌, ◌&&◌, ◌||◌, not, true, false, count_by, find, length, map, slice_index_or, slice_set};
ghost use Rattle.std.specs.List.{flat_map, list_any, position};
ghost use Rattle.std.specs.Option.{option_copied};
ghost use Rattle.ktm_world.specs.declared.recorded.RecordedPart.{RecordedPart as Recording};
ghost use Rattle.ktm_world.specs.Durable.{changes_in, is_decided, is_held, is_part_of, is_ready, parts_done, settings_in};
ghost use Rattle.ktm_waiting.specs.Work.{without_changes, without_settings};

use ktm_base::Items;
use ktm_world::{Change, DonePart, Part, RecordedPart, Setting, Stage};
use std::alloc::Global;
use std::mem::replace;

/// Are parts of a transaction in this stage ready, and is it neither held nor decided.
pub fn is_ready(stage: Stage) -> bool
    ensures { result ≡ is_ready stage }
{
    match stage {
        Stage::Ready => true,
        Stage::Held | Stage::Decided => false,
    }
}

/// Does a transaction in this stage wait for its superior.
pub fn is_held(stage: Stage) -> bool
    ensures { result ≡ is_held stage }
{
    match stage {
        Stage::Held => true,
        Stage::Ready | Stage::Decided => false,
    }
}

/// Is it decided that a transaction in this stage commits.
pub fn is_decided(stage: Stage) -> bool
    ensures { result ≡ is_decided stage }
{
    match stage {
        Stage::Decided => true,
        Stage::Ready | Stage::Held => false,
    }
}

/// The changes of a part, which only the files' has.
pub fn changes_in(part: &Part) -> &[Change]
    ensures { result.now ≡ changes_in part.now }
{
    match part {
        Part::Changes(changes) => changes.as_slice(),
        Part::Settings(_) | Part::Enlistment { .. } => &[],
    }
}

/// The settings of a part, which only the keys' has.
pub(crate) fn settings_in(part: &Part) -> &[Setting]
    ensures { result.now ≡ settings_in part.now }
{
    match part {
        Part::Settings(settings) => settings.as_slice(),
        Part::Changes(_) | Part::Enlistment { .. } => &[],
    }
}

/// Is the part that of this participant.
pub fn is_part_of(done: DonePart, part: &Part) -> bool
    ensures { result ≡ is_part_of done part.now }
{
    match (done, part) {
        (DonePart::Enlistment(id), Part::Enlistment { enlistment, .. }) => id == *enlistment,
        (DonePart::Files, Part::Changes(_)) | (DonePart::Keys, Part::Settings(_)) => true,
        _ => false,
    }
}

// The part of this participant.
fn part_of(parts: &[RecordedPart], done: DonePart) -> Option<&RecordedPart>
    ensures { option_copied result ≡ find (λ p. is_part_of done p.part) parts.now }
{
    parts.iter().find(|p| is_part_of(done, &p.part))
}

/// Is the part of this participant there.
pub fn has_part_of(parts: &[RecordedPart], done: DonePart) -> bool
    ensures { result ≡ list_any (λ p. is_part_of done p.part) parts.now }
{
    parts.iter().any(|p| is_part_of(done, &p.part))
}

/// The changes of the parts, of which one has any.
pub fn changes_of(parts: &[RecordedPart]) -> &[Change]
    requires { count_by (λ p. is_part_of DonePart.Files p.part) parts.now ≤ 1 }
    ensures { result.now ≡ flat_map (λ p. changes_in p.part) parts.now }
{
    match part_of(parts, DonePart::Files) {
        Some(p) => changes_in(&p.part),
        None => &[],
    }
}

/// The settings of the parts, of which one has any.
pub fn settings_of(parts: &[RecordedPart]) -> &[Setting]
    requires { count_by (λ p. is_part_of DonePart.Keys p.part) parts.now ≤ 1 }
    ensures { result.now ≡ flat_map (λ p. settings_in p.part) parts.now }
{
    match part_of(parts, DonePart::Keys) {
        Some(p) => settings_in(&p.part),
        None => &[],
    }
}

/// Is the part of this participant there and not done.
pub(crate) fn has_undone_part_of(parts: &[RecordedPart], done: DonePart) -> bool
    ensures { result ≡ list_any (λ p. is_part_of done p.part && not p.is_done) parts.now }
{
    parts
        .iter()
        .any(|p| is_part_of(done, &p.part) && !p.is_done)
}

/// Is a part not done.
pub fn has_undone_part(parts: &[RecordedPart]) -> bool
    ensures { result ≡ list_any (λ p. not p.is_done) parts.now }
{
    parts.iter().any(|p| !p.is_done)
}

/// Is there a part.
pub fn has_part(parts: &[RecordedPart]) -> bool
    ensures { result ≡ list_any (λ p. true) parts.now }
{
    match parts {
        [] => false,
        [_, ..] => true,
    }
}

// Takes out what the part at the index has, and leaves this there.
fn replace_part(parts: &mut Vec<RecordedPart>, index: usize, part: Part) -> Part
    requires { index < length parts.old.items }
    ensures left { (d : Recording) → parts.new.items ≡ slice_set parts.old.items index (record (slice_index_or parts.old.items index d) { part = part }) }
    ensures taken { (d : Recording) → result ≡ (slice_index_or parts.old.items index d).part }
{
    replace(&mut parts[index].part, part)
}

// The index of the part of this participant.
fn index_of(parts: &[RecordedPart], done: DonePart) -> Option<usize>
    ensures { result ≡ position (λ p. is_part_of done p.part) parts.now }
{
    parts.iter().position(|p| is_part_of(done, &p.part))
}

fn into_changes(alloc: Global, part: Part) -> Vec<Change>
    ensures { result.items ≡ changes_in part }
{
    match part {
        Part::Changes(changes) => changes.into_vec(),
        Part::Settings(_) | Part::Enlistment { .. } => Vec::new(alloc),
    }
}

fn into_settings(alloc: Global, part: Part) -> Vec<Setting>
    ensures { result.items ≡ settings_in part }
{
    match part {
        Part::Settings(settings) => settings.into_vec(),
        Part::Changes(_) | Part::Enlistment { .. } => Vec::new(alloc),
    }
}

/// Takes the changes out, and leaves none in their part.
pub(crate) fn take_changes(alloc: Global, parts: &mut Vec<RecordedPart>) -> Vec<Change>
    requires { count_by (λ p. is_part_of DonePart.Files p.part) parts.old.items ≤ 1 }
    ensures taken { result.items ≡ flat_map (λ p. changes_in p.part) parts.old.items }
    ensures left { parts.new.items ≡ map without_changes parts.old.items }
{
    let Some(index) = index_of(parts, DonePart::Files) else {
        return Vec::new(alloc);
    };
    let none = Part::Changes(Items::new(Vec::new(alloc)));
    into_changes(alloc, replace_part(parts, index, none))
}

/// Takes the settings out, and leaves none in their part.
pub(crate) fn take_settings(alloc: Global, parts: &mut Vec<RecordedPart>) -> Vec<Setting>
    requires { count_by (λ p. is_part_of DonePart.Keys p.part) parts.old.items ≤ 1 }
    ensures taken { result.items ≡ flat_map (λ p. settings_in p.part) parts.old.items }
    ensures left { parts.new.items ≡ map without_settings parts.old.items }
{
    let Some(index) = index_of(parts, DonePart::Keys) else {
        return Vec::new(alloc);
    };
    let none = Part::Settings(Items::new(Vec::new(alloc)));
    into_settings(alloc, replace_part(parts, index, none))
}

/// An enlistment that is done is taken out, and another part is marked.
pub(crate) fn finish(parts: &mut Vec<RecordedPart>, done: DonePart)
    ensures { parts.new.items ≡ parts_done done parts.old.items }
{
    match done {
        DonePart::Enlistment(_) => parts.retain(|p| !is_part_of(done, &p.part)),
        DonePart::Files | DonePart::Keys => mark(parts, done),
    }
}

// Is the part done once this participant is.
fn is_done_then(p: &RecordedPart, done: DonePart) -> bool
    ensures { result ≡ (p.now.is_done || is_part_of done p.now.part) }
{
    p.is_done || is_part_of(done, &p.part)
}

// Marks the part of this participant as done.
fn mark(parts: &mut [RecordedPart], done: DonePart)
    ensures { parts.new ≡ map (λ (p : Recording). record p { is_done = p.is_done || is_part_of done p.part }) parts.old }
{
    for p in parts.iter_mut() {
        p.is_done = is_done_then(p, done);
    }
}
