// Reading an image: the state of its snapshot, and what its log makes of that.
ghost use Rattle.std.specs.Prelude.{IsErrOf, ◌≡◌, ℕ, ◌+◌, ◌*◌, ◌≤◌, Ok, IfOk, IfSome, IsSomeAnd, OnOk, false, true};
ghost use Rattle.ktm_base.specs.declared.limits.TheConstants.{LEAST_UNITS, MOST_UNITS};
ghost use Rattle.ktm_log.specs.Log.{payloads_in};
ghost use Rattle.ktm_log.specs.OnDisk.{on};
ghost use Rattle.ktm_paged.specs.Paged.{paged_after_all};
ghost use Rattle.ktm_world.specs.Logs.{Group};
ghost use Rattle.ktm_world.specs.EventGrammar.{IsGroupOf};
ghost use Rattle.ktm_journal.specs.Image.{IsHeaded, half_of, log_area};
ghost use Rattle.ktm_journal.specs.Bad.{load_went_down};
ghost use Rattle.ktm_journal.specs.Open.{log_reads};
ghost use Rattle.ktm_restart.specs.Bad.{BeginsAs, IsBadPayload};
ghost use Rattle.ktm_restart.specs.Payloads.{ComesTo, IsFirstBad};
ghost use Rattle.ktm_restart.specs.Loads.{LoadLeaves};
ghost use Rattle.ktm_restart.specs.Logs.{AppliesTo};
ghost use Rattle.ktm_restart.specs.Reading.{IsReadWell};
ghost use Rattle.ktm_restart.specs.Starts.{IsReading, ReadsReading, ReplayLeaves, StartLeaves};

use crate::durable::Durable;
use crate::reading::Reading;
use ktm_base::{Disk, NoMemory};
use ktm_codec::u32_at;
use ktm_journal::{Header, Journal, LoadFault, page_count, read_snapshot};
use ktm_log::{first_payload, frame_len};
use ktm_owners::Owners;
use ktm_paged::law_of_paged_records;
use ktm_records::law_of_spelling;
use ktm_replayed::Replayed;
use ktm_saved::read_state;
use ktm_snapshot::law_of_states;
use std::alloc::Global;
use txf_laws::law_of_grammar;

/// A journal that was loaded, and the durable state to which its image comes, over the places of bytes.
#[derive(Drop)]
pub struct Loaded {
    pub journal: Journal,
    pub state: Durable,
}

// Makes of the state what a payload says, if it is a group that applies. Its events are applied where they lie, one behind another.
fn apply(alloc: Global, state: &mut Reading, payload: &[u8]) -> Result<bool, NoMemory>
    requires { IsReadWell state.old }
    ensures good { result ≡ Ok true → (events : Group) × IsGroupOf events payload.now × AppliesTo state.old.state events × (state.new.state ≡ paged_after_all state.old.state events) }
    ensures well { result ≡ Ok true → IsReadWell state.new }
    ensures bad { result ≡ Ok false → IsBadPayload state.old.state payload.now }
{
    let Some((count, start)) = u32_at(payload, 0) else {
        return Ok(false);
    };
    let mut end = start;
    'events: for _ in 0..count {
        let Some(next) = state.apply_at(alloc, payload, end)? else {
            return Ok(false);
        };
        end = next;
    }
    if count == 0 || end != payload.len() {
        return Ok(false);
    }
    Ok(true)
}

// Makes of the state of a snapshot what the payloads of the log behind it say, which are read where they lie in its bytes.
fn replay(alloc: Global, header: Header, bytes: &[u8], state: &mut Reading) -> Result<(), LoadFault>
    requires most { header.units ≤ MOST_UNITS }
    requires reading { IsReading header state.old }
    ensures good { OnOk result (ComesTo state.old.state (payloads_in bytes.now) state.new.state) }
    ensures reading { OnOk result (IsReading header state.new) }
    ensures bad { (offset : ℕ) → IsErrOf result (LoadFault.Bad offset) → IsFirstBad state.old.state (log_area header.units (half_of header.selector)).at (payloads_in bytes.now) offset }
    ensures up { load_went_down result ≡ false }
{
    let mut at = 0;
    while let Some(payload) = first_payload(&bytes[at..]) {
        match apply(alloc, state, payload) {
            Ok(true) => at += frame_len(payload),
            Ok(false) => return Err(LoadFault::Bad(header.log_at() + at as u64)),
            Err(NoMemory) => return Err(LoadFault::NoMemory),
        }
    }
    law_of_grammar();
    law_of_paged_records();
    law_of_spelling();
    Ok(())
}

// Reads the log behind this header, and makes of the state of the snapshot what the log says.
fn replay_log<D: Disk>(
    alloc: Global,
    disk: &mut D,
    header: Header,
    buffer: &mut Vec<u8>,
    state: &mut Reading,
) -> Result<Journal, LoadFault>
    requires least { LEAST_UNITS ≤ header.units }
    requires most { header.units ≤ MOST_UNITS }
    requires begins { IfSome (D.told disk.old) (λ s. BeginsAs header.units header.image header.selector state.old.state s.seen) }
    requires reading { IsReading header state.old }
    ensures { ReplayLeaves header state.new.state (on buffer.old (D.told disk.old) (D.status disk.old)) (on buffer.new (D.told disk.new) (D.status disk.new)) result }
{
    match Journal::open(disk, header, buffer) {
        Ok(journal) => match replay(alloc, header, buffer.as_slice(), state) {
            Ok(()) => Ok(journal),
            Err(fault) => Err(fault),
        },
        Err(LoadFault::Bad(offset)) => {
            if let Err(fault) = replay(alloc, header, buffer.as_slice(), state) {
                return Err(fault);
            }
            Err(LoadFault::Bad(offset))
        }
        Err(LoadFault::Down) => Err(LoadFault::Down),
        Err(LoadFault::NoMemory) => Err(LoadFault::NoMemory),
    }
}

// Reads the log behind this header, and gives its journal with what the log makes of the state of the snapshot.
fn load_log<D: Disk>(
    alloc: Global,
    disk: &mut D,
    header: Header,
    buffer: &mut Vec<u8>,
    mut state: Reading,
) -> Result<Loaded, LoadFault>
    requires least { LEAST_UNITS ≤ header.units }
    requires most { header.units ≤ MOST_UNITS }
    requires begins { IfSome (D.told disk.old) (λ s. BeginsAs header.units header.image header.selector state.state s.seen) }
    requires reading { IsReading header state }
    ensures { LoadLeaves (log_reads header.units) (on buffer.old (D.told disk.old) (D.status disk.old)) (on buffer.new (D.told disk.new) (D.status disk.new)) result }
{
    match replay_log(alloc, disk, header, buffer, &mut state) {
        Ok(mut journal) => {
            let state = state.into_durable();
            journal.count_from(state.events());
            Ok(Loaded { journal, state })
        }
        Err(fault) => {
            drop(state);
            Err(fault)
        }
    }
}

// The good state that stands in the bytes of a snapshot of an image with so many units and this number, if it is on pages. The memory
// for the owners of pages is taken before, while nothing else would have to be given back.
fn read_reading(
    alloc: Global,
    bytes: &[u8],
    units: u32,
    image: u16,
) -> Result<Option<Reading>, NoMemory>
    requires { units ≤ MOST_UNITS }
    ensures { IfOk result (λ read. ReadsReading units image bytes.now read) }
{
    law_of_states();
    let owners = Owners::new(alloc, page_count(units))?;
    match read_state(alloc, bytes, units, image) {
        Ok(Some(saved)) => {
            let reading = Reading::new(Replayed::from(alloc, saved, units, image), owners);
            reading.if_on_pages()
        }
        Ok(None) => Ok(None),
        Err(NoMemory) => Err(NoMemory),
    }
}

// Reads the snapshot behind this header, and gives the state that it stands for.
fn read_start<D: Disk>(
    alloc: Global,
    disk: &mut D,
    header: Header,
    buffer: &mut Vec<u8>,
) -> Result<Reading, LoadFault>
    requires most { header.units ≤ MOST_UNITS }
    requires headed { IfSome (D.told disk.old) (λ s. IsHeaded header.units header.image header.selector s.seen) }
    ensures { StartLeaves header (on buffer.old (D.told disk.old) (D.status disk.old)) (on buffer.new (D.told disk.new) (D.status disk.new)) result }
{
    if let Err(fault) = read_snapshot(disk, header, buffer) {
        return Err(fault);
    }
    match read_reading(alloc, buffer.as_slice(), header.units, header.image) {
        Ok(Some(state)) => Ok(state),
        Ok(None) => Err(LoadFault::Bad(header.snapshot_at())),
        Err(NoMemory) => Err(LoadFault::NoMemory),
    }
}

// Reads the snapshot and the log behind this header, and gives the journal with the state that they come to.
fn load_half<D: Disk>(
    alloc: Global,
    disk: &mut D,
    header: Header,
    buffer: &mut Vec<u8>,
) -> Result<Loaded, LoadFault>
    requires least { LEAST_UNITS ≤ header.units }
    requires most { header.units ≤ MOST_UNITS }
    requires headed { IfSome (D.told disk.old) (λ s. IsHeaded header.units header.image header.selector s.seen) }
    ensures { LoadLeaves (log_reads header.units + 2) (on buffer.old (D.told disk.old) (D.status disk.old)) (on buffer.new (D.told disk.new) (D.status disk.new)) result }
{
    let state = match read_start(alloc, disk, header, buffer) {
        Ok(state) => state,
        Err(fault) => return Err(fault),
    };
    load_log(alloc, disk, header, buffer, state)
}

/// Reads the image of a disk, and gives its journal with the state that it stands for. It writes nothing. The snapshot and then
/// the log are read into the buffer, which is made as long as an area, and afterwards has room for whatever can be appended.
pub fn load<D: Disk>(alloc: Global, disk: &mut D, buffer: &mut Vec<u8>) -> Result<Loaded, LoadFault>
    ensures leaves { LoadLeaves (log_reads MOST_UNITS + 5) (on buffer.old (D.told disk.old) (D.status disk.old)) (on buffer.new (D.told disk.new) (D.status disk.new)) result }
    ensures few { (units image selector : ℕ) → IsSomeAnd (D.told disk.old) (λ s. IsHeaded units image selector s.seen) → (D.status disk.new).calls ≤ (D.status disk.old).calls + (log_reads units + 5) }
{
    let header = match Header::read(disk) {
        Ok(header) => header,
        Err(fault) => return Err(fault),
    };
    load_half(alloc, disk, header, buffer)
}
