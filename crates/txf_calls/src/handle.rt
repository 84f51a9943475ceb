// The calls on an open file.
ghost use Rattle.std.specs.Prelude.{◌≡◌, ◌<◌, ◌≤◌, ◌+◌, ◌-◌, ◌*◌, ◌^◌, ◌∷◌, [], List, None, ℕ, length, max, min};
ghost use Rattle.ktm_base.specs.declared.limits.TheConstants.{UNIT_BYTES};
ghost use Rattle.ktm_base.specs.declared.refusal.Refusal.TheVariants.{DiskFull};
ghost use Rattle.ktm_world.specs.FileCalls.{read_file_tests, set_end, write_file};
ghost use Rattle.ktm_world.specs.FileOutcome.{FileRoom, lacks_disk};
ghost use Rattle.ktm_world.specs.Files.{bytes_seen};
ghost use Rattle.ktm_world.specs.Outcome.{first_refusal};
ghost use Rattle.txf_calls.specs.Calls.{file_outcome, file_tests, unless_refused, IsForUnits};
ghost use Rattle.txf_calls.specs.Fits.{IsFit, IsOnFile};
ghost use Rattle.txf_opens.specs.Acts.{open_of};
ghost use Rattle.txf_laws.specs.FileEffects.{IsOrderly};
ghost use Rattle.txf_calls.specs.declared.call.FileCall.TheVariants.{Flush, SetEnd, Size, Write, WriteUnits};

use crate::call::Room;
use crate::plan::{Plan, unless_refused};
use crate::volume::Volume;
use ktm_base::{Id, MOST_AT_ONCE, PageList, Refusal};
use ktm_content::Placed;
use ktm_world::{Change, Contents, Reply};
use std::alloc::Global;
use txf_opens::{OpenFile, reads, writes};

// Why a plan that fills the disk is refused.
fn disk_refusal<V: Volume>(volume: &V, who: Option<Id>, plan: &Plan, room: &Room) -> Option<Refusal>
    requires { IsFit (V.files volume.now) who plan.now }
    ensures { result ≡ first_refusal ((lacks_disk (V.files volume.now) room.now who plan.now, DiskFull) ∷ []) }
{
    if volume.lacks_disk(who, plan, room) {
        Some(Refusal::DiskFull)
    } else {
        None
    }
}

// The plan, where it does not fill the disk.
fn within_disk<V: Volume>(volume: &V, who: Option<Id>, plan: Plan, room: &Room) -> Plan
    requires { IsFit (V.files volume.now) who plan }
    ensures { result ≡ unless_refused (first_refusal ((lacks_disk (V.files volume.now) room.now who plan, DiskFull) ∷ [])) plan }
{
    let refusal = disk_refusal(volume, who, &plan, room);
    unless_refused(refusal, plan)
}

/// Why a read of so many bytes is refused, if it is. The bytes are those that the volume lends.
#[tactic(auto, unfolding(ktm_world::specs::FileCalls::read_file_tests))]
pub fn read_refusal(file: OpenFile, length: u64) -> Option<Refusal>
    ensures { result ≡ first_refusal (read_file_tests (open_of file) length) }
{
    if length > MOST_AT_ONCE as u64 {
        return Some(Refusal::InvalidParameter);
    }
    if !reads(file.access) {
        return Some(Refusal::AccessDenied);
    }
    None
}

// Puts bytes; none change nothing.
#[tactic(auto, unfolding(ktm_world::specs::FileCalls::write_file))]
fn put(file: OpenFile, offset: u64, bytes: Placed) -> Plan
    ensures { result ≡ write_file (open_of file) offset bytes }
{
    if bytes.is_empty() {
        return Plan::answering(Reply::Done);
    }
    Plan::changing(Change::Put {
        node: file.node,
        offset,
        contents: Contents::Whole(bytes),
    })
}

/// Puts whole units, from the begin of one on.
#[tactic(auto, unfolding(ktm_world::specs::FileCalls::write_units_tests))]
pub(crate) fn write_units<V: Volume>(
    volume: &V,
    file: OpenFile,
    start: u64,
    contents: Placed,
    room: &Room,
) -> Plan
    requires { IsOnFile (V.files volume.now) (open_of file) }
    ensures { (who : _) → result ≡ file_outcome (V.files volume.now) room.now who (WriteUnits file start contents) }
{
    if !writes(file.access) {
        return Plan::refused(Refusal::AccessDenied);
    }
    within_disk(volume, file.transaction, put(file, start, contents), room)
}

/// Writes bytes at an offset.
#[tactic(auto, unfolding(ktm_world::specs::FileCalls::write_file_tests))]
pub(crate) fn write<V: Volume>(
    volume: &V,
    file: OpenFile,
    offset: u64,
    bytes: Placed,
    room: &Room,
) -> Plan
    requires { IsOnFile (V.files volume.now) (open_of file) }
    ensures { (who : _) → result ≡ file_outcome (V.files volume.now) room.now who (Write file offset bytes) }
{
    if bytes.len() > MOST_AT_ONCE as u64 {
        return Plan::refused(Refusal::InvalidParameter);
    }
    write_units(volume, file, offset, bytes, room)
}

// Makes the file so long.
#[tactic(auto, unfolding(ktm_world::specs::FileCalls::set_end))]
fn cut(alloc: Global, file: OpenFile, size: u64) -> Plan
    ensures { result ≡ set_end (open_of file) size }
{
    Plan::changing(Change::Cut {
        node: file.node,
        size,
        pages: PageList::new(Vec::new(alloc)),
    })
}

// Why a file is refused to be made so long, if it is.
#[tactic(auto, unfolding(ktm_world::specs::FileCalls::set_end_tests))]
fn end_refusal<V: Volume>(
    alloc: Global,
    volume: &V,
    file: OpenFile,
    size: u64,
    room: &Room,
) -> Option<Refusal>
    requires { IsOnFile (V.files volume.now) (open_of file) }
    ensures { (who : _) → result ≡ first_refusal (file_tests (V.files volume.now) room.now who (SetEnd file size)) }
{
    if !writes(file.access) {
        return Some(Refusal::AccessDenied);
    }
    let plan = cut(alloc, file, size);
    disk_refusal(volume, file.transaction, &plan, room)
}

/// Why a file is refused to be made so long, if it is. So is then a put of whole units that makes it as long. Else so many bytes
/// are no more than there are units for.
pub fn set_end_refusal<V: Volume>(
    alloc: Global,
    volume: &V,
    file: OpenFile,
    size: u64,
    room: &Room,
) -> Option<Refusal>
    requires orderly { IsOrderly (V.files volume.now) }
    requires file { IsOnFile (V.files volume.now) (open_of file) }
    ensures refusal { (who : _) → result ≡ first_refusal (file_tests (V.files volume.now) room.now who (SetEnd file size)) }
    ensures units { IsForUnits (V.files volume.now) room.now file size result }
    ensures small { result ≡ None → size ≤ room.now.units * UNIT_BYTES }
{
    end_refusal(alloc, volume, file, size, room)
}

/// Makes a file so long.
pub(crate) fn set_end<V: Volume>(
    alloc: Global,
    volume: &V,
    file: OpenFile,
    size: u64,
    room: &Room,
) -> Plan
    requires { IsOnFile (V.files volume.now) (open_of file) }
    ensures { (who : _) → result ≡ file_outcome (V.files volume.now) room.now who (SetEnd file size) }
{
    let refusal = end_refusal(alloc, volume, file, size, room);
    unless_refused(refusal, cut(alloc, file, size))
}

// So many units are there at most.
fn units_in(room: &Room) -> u32
    ensures units { result ≡ room.now.units }
    ensures few { result < 2 ^ 32 }
{
    room.units
}

// The end of so many bytes at an offset, or the last one that a number says, which is beyond every disk.
fn end_of(offset: u64, len: u64, room: &Room) -> u64
    ensures end { result ≡ min (offset + len) (2 ^ 64 - 1) }
    ensures few { room.now.units < 2 ^ 32 }
{
    let _ = units_in(room);
    offset.saturating_add(len)
}

/// Why a write of so many bytes at an offset is refused, if it is, whatever the bytes are: it takes as much of the disk as a put of
/// whole units that makes the file as long. If it is not, so many bytes are no more than there are units for.
pub fn write_refusal<V: Volume>(
    alloc: Global,
    volume: &V,
    file: OpenFile,
    offset: u64,
    len: u64,
    room: &Room,
) -> Option<Refusal>
    requires orderly { IsOrderly (V.files volume.now) }
    requires file { IsOnFile (V.files volume.now) (open_of file) }
    requires some { 1 ≤ len }
    ensures refusal { (who : _) (bytes : List ℕ) → length bytes ≡ len → result ≡ first_refusal (file_tests (V.files volume.now) room.now who (Write file offset bytes)) }
    ensures units { result ≡ None → IsForUnits (V.files volume.now) room.now file (max (length (bytes_seen (V.files volume.now) file.transaction file.node)) (offset + len)) None }
    ensures small { result ≡ None → max (length (bytes_seen (V.files volume.now) file.transaction file.node)) (offset + len) ≤ room.now.units * UNIT_BYTES }
{
    if len > MOST_AT_ONCE as u64 {
        return Some(Refusal::InvalidParameter);
    }
    let size = volume.bytes(file.transaction, file.node).len();
    let end = end_of(offset, len, room);
    set_end_refusal(alloc, volume, file, size.max(end), room)
}

/// Tells how many bytes a file has.
#[tactic(auto, unfolding(ktm_world::specs::FileCalls::get_size))]
pub(crate) fn size<V: Volume>(volume: &V, file: OpenFile) -> Plan
    ensures { (room : FileRoom) (who : _) → result ≡ file_outcome (V.files volume.now) room who (Size file) }
{
    Plan::answering(Reply::Size(volume.bytes(file.transaction, file.node).len()))
}

/// Makes sure that what was written is safe: each plain change is, before it is answered.
pub(crate) fn flush<V: Volume>(volume: &V, file: OpenFile) -> Plan
    ensures { (room : FileRoom) (who : _) → result ≡ file_outcome (V.files volume.now) room who (Flush file) }
{
    if !writes(file.access) {
        return Plan::refused(Refusal::AccessDenied);
    }
    Plan::answering(Reply::Done)
}
