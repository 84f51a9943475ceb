// Pages for what is to be written, filled in memory before it is asked.
ghost use Rattle.std.specs.Prelude.{◌≡◌, ◌+◌, ◌^◌, ◌<◌, ◌≤◌, ℕ, List, [], true, IfErr, IfOk, IfSome, drop, length, take};
ghost use Rattle.ktm_base.specs.Disk.{OnlyReads};
ghost use Rattle.ktm_content.specs.Contents.{cut_to, put_over};
ghost use Rattle.ktm_core.specs.Memory.{present_of};
ghost use Rattle.ktm_core.specs.Reading.{Agrees, many_read, units_read};
ghost use Rattle.ktm_journal.specs.Image.{IsHeaded, page_count};
ghost use Rattle.ktm_kernel.specs.Staging.{ComesTo, IfOutOfMemory, IsFilled, IsUnfilled, KeepsMarks, KeepsPlaces, KeepsRows, MayBeAsked, MayStage, went_down};
ghost use Rattle.ktm_store.specs.Marks.{free_ahead};
ghost use Rattle.ktm_store.specs.Pool.{Shows, head_of, tail_of};
ghost use Rattle.ktm_store.specs.Store.{AreBelow, AreHeld, bytes_at, touched};
ghost use Rattle.ktm_world.specs.Values.{IsCommand};
ghost use Rattle.ktm_world.specs.declared.command.Command.TheVariants.{SetEndOfFile, WriteFile};
ghost use Rattle.ktm_world.specs.declared.command.Line.TheVariants.{Process};
ghost use Rattle.ktm_world.specs.Decide.{decide, refusal_of};
ghost use Rattle.ktm_world.specs.Files.{bytes_seen};
ghost use Rattle.txf_volume.specs.Held.{files_of};

use ktm_alike::law_of_alike_presents;
use ktm_base::{Bytes, Disk, Id, Label, NoMemory, Pid, Refusal, UNIT_BYTES, law_of_calls};
use ktm_content::{Placed, PlacedRef};
use ktm_core::{Asked, Extent, Memory, ReadFault, end_target, read_content, write_target};
use ktm_journal::Journal;
use ktm_paged::law_of_paged_records;
use ktm_standing::law_of_files;
use ktm_store::Store;
use ktm_units::law_of_units;
use ktm_world::Command;
use std::alloc::Global;

/// What a write comes to over places.
#[derive(Drop)]
pub(crate) enum Staged {
    /// This is to be asked.
    Ask(Asked),
    /// It is refused.
    Refuse(Refusal),
}

// How many units are touched where contents of so many bytes change from an offset to an end.
fn touched(size: u64, at: u64, end: u64) -> u64
    requires some { 1 ≤ end }
    requires order { at ≤ end }
    ensures { result ≡ touched size at end }
{
    (end - 1) / UNIT_BYTES + 1 - size.min(at) / UNIT_BYTES
}

// Has so many pages free: where they are not, all that memory does not name are free again.
fn make_room(memory: &Memory, store: &mut Store, units: u64)
    requires may { MayStage (present_of memory.now) memory.now.journal.units store.old }
    requires few { units ≤ memory.now.journal.units }
    ensures seen { store.new.seen ≡ store.old.seen }
    ensures stored { store.new.stored ≡ store.old.stored }
    ensures keeps { KeepsPlaces (files_of memory.now.files) store.old store.new }
    ensures free { units ≤ free_ahead store.new.marks }
{
    if u64::from(store.free()) < units {
        store.clear();
        memory.hold_pages(store);
    }
}

/// The bytes of contents from the offset on, at most so many. A page that is not in memory is read from the disk, by one device call.
pub(crate) fn read_part<D: Disk>(
    alloc: Global,
    disk: &mut D,
    journal: &Journal,
    store: &mut Store,
    content: PlacedRef<'_>,
    offset: u64,
    most: u64,
) -> Result<Vec<u8>, ReadFault>
    requires headed { IfSome (D.told disk.old) (λ s. IsHeaded journal.now.units journal.now.image journal.now.selector s.seen) }
    requires count { length store.old.marks.held ≡ page_count journal.now.units }
    requires wanted { store.old.wanted ≡ [] }
    requires below { AreBelow (length store.old.marks.held) content }
    ensures rows { (row : List ℕ) → Shows store.old row → Agrees journal.now.units store.old row (D.told disk.old)
        → Shows store.new row × IfOk result (λ bytes. bytes.items ≡ take most (drop offset (bytes_at row content.entry))) }
    ensures long { IfOk result (λ bytes. length bytes.items ≡ many_read (length content.entry) offset most) }
    ensures keeps { KeepsMarks store.old store.new }
    ensures reads { OnlyReads (units_read (length content.entry) offset most) (D.told disk.old) (D.told disk.new) (D.status disk.old) (D.status disk.new) (went_down result) }
    ensures no_memory { IfOutOfMemory result ((D.status disk.new ≡ D.status disk.old) × (store.new ≡ store.old)) }
{
    let mut bytes = Vec::new(alloc);
    match read_content(
        alloc, disk, journal, store, content, offset, most, &mut bytes,
    ) {
        Ok(()) => Ok(bytes),
        Err(fault) => Err(fault),
    }
}

// What the bytes of a file that are seen have of their unit in front of an offset, or of their last one where they end before.
fn read_head<D: Disk>(
    alloc: Global,
    disk: &mut D,
    memory: &Memory,
    store: &mut Store,
    who: Option<Id>,
    node: u64,
    at: u64,
) -> Result<Vec<u8>, ReadFault>
    requires headed { IfSome (D.told disk.old) (λ s. IsHeaded memory.now.journal.units memory.now.journal.image memory.now.journal.selector s.seen) }
    requires count { length store.old.marks.held ≡ page_count memory.now.journal.units }
    requires wanted { store.old.wanted ≡ [] }
    requires below { AreBelow (length store.old.marks.held) (bytes_seen (files_of memory.now.files) who node) }
    ensures rows { (row : List ℕ) → Shows store.old row → Agrees memory.now.journal.units store.old row (D.told disk.old)
        → Shows store.new row × IfOk result (λ bytes. bytes.items ≡ head_of (bytes_at row (bytes_seen (files_of memory.now.files) who node)) at) }
    ensures long { IfOk result (λ bytes. length bytes.items ≡ length (head_of (bytes_seen (files_of memory.now.files) who node) at)) }
    ensures keeps { KeepsMarks store.old store.new }
    ensures reads { OnlyReads 1 (D.told disk.old) (D.told disk.new) (D.status disk.old) (D.status disk.new) (went_down result) }
{
    let contents = memory.bytes_seen(who, node);
    let end = contents.len().min(at);
    let many = end % UNIT_BYTES;
    let journal = memory.journal();
    read_part(alloc, disk, journal, store, contents, end - many, many)
}

// What they have behind an end up to that of its unit.
fn read_tail<D: Disk>(
    alloc: Global,
    disk: &mut D,
    memory: &Memory,
    store: &mut Store,
    who: Option<Id>,
    node: u64,
    end: u64,
) -> Result<Vec<u8>, ReadFault>
    requires headed { IfSome (D.told disk.old) (λ s. IsHeaded memory.now.journal.units memory.now.journal.image memory.now.journal.selector s.seen) }
    requires count { length store.old.marks.held ≡ page_count memory.now.journal.units }
    requires wanted { store.old.wanted ≡ [] }
    requires below { AreBelow (length store.old.marks.held) (bytes_seen (files_of memory.now.files) who node) }
    requires some { 1 ≤ end }
    requires fits { end < 2 ^ 63 }
    ensures rows { (row : List ℕ) → Shows store.old row → Agrees memory.now.journal.units store.old row (D.told disk.old)
        → Shows store.new row × IfOk result (λ bytes. bytes.items ≡ tail_of (bytes_at row (bytes_seen (files_of memory.now.files) who node)) end) }
    ensures long { IfOk result (λ bytes. length bytes.items ≡ length (tail_of (bytes_seen (files_of memory.now.files) who node) end)) }
    ensures keeps { KeepsMarks store.old store.new }
    ensures reads { OnlyReads 1 (D.told disk.old) (D.told disk.new) (D.status disk.old) (D.status disk.new) (went_down result) }
{
    let contents = memory.bytes_seen(who, node);
    let unit_end = ((end - 1) / UNIT_BYTES + 1) * UNIT_BYTES;
    let many = unit_end - end;
    read_part(alloc, disk, memory.journal(), store, contents, end, many)
}

// Makes the units of a file that change where bytes are put into it, with what they have at both ends.
fn fill_put<D: Disk>(
    alloc: Global,
    disk: &mut D,
    memory: &Memory,
    store: &mut Store,
    who: Option<Id>,
    node: u64,
    at: u64,
    bytes: &[u8],
) -> Result<(u64, Placed), ReadFault>
    requires headed { IfSome (D.told disk.old) (λ s. IsHeaded memory.now.journal.units memory.now.journal.image memory.now.journal.selector s.seen) }
    requires count { length store.old.marks.held ≡ page_count memory.now.journal.units }
    requires wanted { store.old.wanted ≡ [] }
    requires held { AreHeld store.old.marks.held (bytes_seen (files_of memory.now.files) who node) }
    requires some { 1 ≤ length bytes.now }
    requires ends { at + length bytes.now < 2 ^ 63 }
    requires free { touched (length (bytes_seen (files_of memory.now.files) who node)) at (at + length bytes.now) ≤ free_ahead store.old.marks }
    ensures ok { IfOk result (λ made. IsFilled (λ before. put_over before at bytes.now) at (at + length bytes.now) (touched (length (bytes_seen (files_of memory.now.files) who node)) at (at + length bytes.now)) (bytes_seen (files_of memory.now.files) who node) memory.now.journal.units (D.told disk.old) store.old store.new made.0 made.1) }
    ensures err { IfErr result (λ fault. IsUnfilled memory.now.journal.units (D.told disk.old) store.old store.new) }
    ensures reads { OnlyReads 2 (D.told disk.old) (D.told disk.new) (D.status disk.old) (D.status disk.new) (went_down result) }
{
    law_of_calls();
    let head = read_head(alloc, disk, memory, store, who, node, at)?;
    let tail = read_tail(
        alloc,
        disk,
        memory,
        store,
        who,
        node,
        at + bytes.len() as u64,
    )?;
    match store.write(alloc, memory.bytes_seen(who, node), at, bytes, &head, &tail) {
        Ok(made) => Ok(made),
        Err(NoMemory) => Err(ReadFault::NoMemory),
    }
}

// Makes the units by which a file becomes longer, with what its last one has.
fn fill_end<D: Disk>(
    alloc: Global,
    disk: &mut D,
    memory: &Memory,
    store: &mut Store,
    who: Option<Id>,
    node: u64,
    size: u64,
) -> Result<(u64, Placed), ReadFault>
    requires headed { IfSome (D.told disk.old) (λ s. IsHeaded memory.now.journal.units memory.now.journal.image memory.now.journal.selector s.seen) }
    requires count { length store.old.marks.held ≡ page_count memory.now.journal.units }
    requires wanted { store.old.wanted ≡ [] }
    requires held { AreHeld store.old.marks.held (bytes_seen (files_of memory.now.files) who node) }
    requires longer { length (bytes_seen (files_of memory.now.files) who node) < size }
    requires ends { size < 2 ^ 63 }
    requires free { touched (length (bytes_seen (files_of memory.now.files) who node)) size size ≤ free_ahead store.old.marks }
    ensures ok { IfOk result (λ made. IsFilled (λ before. cut_to before size) size size (touched (length (bytes_seen (files_of memory.now.files) who node)) size size) (bytes_seen (files_of memory.now.files) who node) memory.now.journal.units (D.told disk.old) store.old store.new made.0 made.1) }
    ensures err { IfErr result (λ fault. IsUnfilled memory.now.journal.units (D.told disk.old) store.old store.new) }
    ensures reads { OnlyReads 1 (D.told disk.old) (D.told disk.new) (D.status disk.old) (D.status disk.new) (went_down result) }
{
    let head = read_head(alloc, disk, memory, store, who, node, size)?;
    match store.grow(alloc, memory.bytes_seen(who, node), size, &head) {
        Ok(made) => Ok(made),
        Err(NoMemory) => Err(ReadFault::NoMemory),
    }
}

/// Fills pages for the units of a file that so many bytes at an offset touch, and says what is to be asked.
pub(crate) fn stage_write<D: Disk>(
    alloc: Global,
    disk: &mut D,
    memory: &Memory,
    store: &mut Store,
    process: Pid,
    file: Label,
    offset: u64,
    bytes: &Bytes,
) -> Result<Staged, ReadFault>
    requires up { memory.now.is_up ≡ true }
    requires may { MayStage (present_of memory.now) memory.now.journal.units store.old }
    requires headed { IfSome (D.told disk.old) (λ s. IsHeaded memory.now.journal.units memory.now.journal.image memory.now.journal.selector s.seen) }
    requires command { IsCommand (WriteFile file offset bytes.now) }
    requires some { 1 ≤ length bytes.now }
    ensures places { KeepsPlaces (files_of memory.now.files) store.old store.new }
    ensures rows { KeepsRows (files_of memory.now.files) memory.now.journal.units (D.told disk.old) store.old store.new (ComesTo (present_of memory.now) (λ y. decide y process (WriteFile file offset bytes.now)) result) }
    ensures asks { MayBeAsked (present_of memory.now) store.new (Process process (WriteFile file offset bytes.now)) (decide (present_of memory.now) process (WriteFile file offset bytes.now))
        (refusal_of (present_of memory.now) process (WriteFile file offset bytes.now)) (D.status disk.old) (D.status disk.new) result }
    ensures reads { OnlyReads 2 (D.told disk.old) (D.told disk.new) (D.status disk.old) (D.status disk.new) (went_down result) }
{
    law_of_paged_records();
    law_of_alike_presents();
    law_of_units();
    law_of_files();
    let len = bytes.len() as u64;
    let target = match write_target(memory, alloc, process, file, offset, len) {
        Ok(target) => target,
        Err(refusal) => return Ok(Staged::Refuse(refusal)),
    };
    let end = offset + len;
    make_room(memory, store, touched(target.contents.len(), offset, end));
    let (start, contents) = fill_put(
        alloc,
        disk,
        memory,
        store,
        target.who,
        target.node,
        offset,
        bytes.as_slice(),
    )?;
    Ok(Staged::Ask(Asked::Units {
        process,
        file,
        start,
        contents,
        extent: Extent::Put {
            offset,
            len: len as u32,
        },
    }))
}

/// Fills pages for the units by which a file becomes longer, if it does, and says what is to be asked.
pub(crate) fn stage_end<D: Disk>(
    alloc: Global,
    disk: &mut D,
    memory: &Memory,
    store: &mut Store,
    process: Pid,
    file: Label,
    size: u64,
) -> Result<Staged, ReadFault>
    requires up { memory.now.is_up ≡ true }
    requires may { MayStage (present_of memory.now) memory.now.journal.units store.old }
    requires headed { IfSome (D.told disk.old) (λ s. IsHeaded memory.now.journal.units memory.now.journal.image memory.now.journal.selector s.seen) }
    requires command { IsCommand (SetEndOfFile file size) }
    ensures places { KeepsPlaces (files_of memory.now.files) store.old store.new }
    ensures rows { KeepsRows (files_of memory.now.files) memory.now.journal.units (D.told disk.old) store.old store.new (ComesTo (present_of memory.now) (λ y. decide y process (SetEndOfFile file size)) result) }
    ensures asks { MayBeAsked (present_of memory.now) store.new (Process process (SetEndOfFile file size)) (decide (present_of memory.now) process (SetEndOfFile file size))
        (refusal_of (present_of memory.now) process (SetEndOfFile file size)) (D.status disk.old) (D.status disk.new) result }
    ensures reads { OnlyReads 1 (D.told disk.old) (D.told disk.new) (D.status disk.old) (D.status disk.new) (went_down result) }
{
    law_of_paged_records();
    law_of_alike_presents();
    law_of_units();
    law_of_files();
    let target = match end_target(memory, alloc, process, file, size) {
        Ok(target) => target,
        Err(refusal) => return Ok(Staged::Refuse(refusal)),
    };
    if size <= target.contents.len() {
        return Ok(Staged::Ask(Asked::Call(process, Command::SetEndOfFile { file, size })));
    }
    make_room(memory, store, touched(target.contents.len(), size, size));
    let (start, contents) = fill_end(alloc, disk, memory, store, target.who, target.node, size)?;
    Ok(Staged::Ask(Asked::Units {
        process,
        file,
        start,
        contents,
        extent: Extent::End,
    }))
}
