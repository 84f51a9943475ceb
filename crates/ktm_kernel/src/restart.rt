// Starting the machine from its disk.
ghost use Rattle.std.specs.Prelude.{◌≡◌, ◌+◌, ◌*◌, ◌≤◌, ℕ, IfOk, OnErr, Some, None, false, vec_capacity, IfSome, IsSomeAnd};
ghost use Rattle.ktm_base.specs.declared.limits.TheConstants.{MOST_UNITS};
ghost use Rattle.ktm_base.specs.Disk.{DeviceCalls};
ghost use Rattle.ktm_core.specs.Core.{AreSoundFiles};
ghost use Rattle.ktm_core.specs.Starting.{IsStarting};
ghost use Rattle.ktm_journal.specs.Image.{IsHeaded, page_count};
ghost use Rattle.ktm_kernel.specs.Answers.{StartAgainLeaves};
ghost use Rattle.ktm_kernel.specs.Begun.{AreOnDiskAlone, BeginLeaves, IsMachineOf, IsNoMachine};
ghost use Rattle.ktm_kernel.specs.Restarts.{RestartLeaves, answer_of, restart_went_down};
ghost use Rattle.ktm_kernel.specs.Stands.{FoundAt, kernel_of};
ghost use Rattle.ktm_log.specs.OnDisk.{on};
ghost use Rattle.ktm_core.specs.Memory.{IsRoomy};
ghost use Rattle.ktm_world.specs.Sizes.{area_len};
ghost use Rattle.ktm_world.specs.World.{World};
ghost use Rattle.txf_volume.specs.Held.{files_of};

use crate::buffers::Buffers;
use crate::kernel::Kernel;
use ktm_alike::law_of_alike_presents;
use ktm_base::{Disk, Down, NoMemory, Refusal};
use ktm_core::{
    Core, Memory, Starting, events_in, in_doubt, is_worn, law_of_bad_images, law_of_debts,
    law_of_states, load, prepare, record_start,
};
use ktm_event::Events;
use ktm_journal::LoadFault;
use ktm_mapped::law_of_mapped_states;
use ktm_records::law_of_spelling;
use ktm_standing::{law_of_fresh, law_of_kept, law_of_standing};
use ktm_store::Store;
use ktm_world::Reply;
use std::alloc::Global;
use std::mem::replace;
use thiserror::Error;

/// How many bytes a frame has beside its events, which with them fill an area at most.
const FRAME: usize = 9;

/// A machine that started.
#[derive(Drop)]
pub struct Restarted {
    pub kernel: Kernel,
    /// How many events were found, before those that this start recorded.
    pub events: u64,
    /// How many transactions are in doubt: each waits for its superior, and holds what it changed and set.
    pub in_doubt: u32,
}

/// Why a machine did not start.
#[derive(Clone, Copy, Debug, PartialEq, Eq, Error)]
pub enum RestartFault {
    /// The disk has no power. What the start records may be there or not.
    #[error("the disk has no power")]
    Down,
    /// The image cannot be opened, for what stands at this offset. Nothing was written.
    #[error("bad image at {0}")]
    Bad(u64),
    /// The image counts 2^32 - 2 boots or more, or 2^62 events or more. Nothing was written.
    #[error("worn image")]
    Worn,
    /// Out of memory. Nothing was written.
    #[error("out of memory")]
    NoMemory,
}

// What a restart answers that did not start its machine.
fn answer_of(fault: RestartFault) -> Result<Reply, NoMemory>
    ensures ok { IfOk result (λ reply. answer_of fault ≡ Some reply) }
    ensures err { OnErr result (answer_of fault ≡ None) }
{
    match fault {
        RestartFault::Down => Ok(Reply::Refused(Refusal::MachineDown)),
        RestartFault::Bad(offset) => Ok(Reply::BadImage(offset)),
        RestartFault::Worn => Ok(Reply::Refused(Refusal::ImageWorn)),
        RestartFault::NoMemory => Err(NoMemory),
    }
}

// The machine that holds this, with the list for what it records and the buffer for its snapshots.
fn machine(alloc: Global, memory: Memory, store: Store, events: Events, snapshot: Vec<u8>) -> Kernel
    requires roomy { IsRoomy memory.journal events }
    requires room { area_len memory.journal.units ≤ vec_capacity snapshot }
    ensures { result ≡ kernel_of memory store }
{
    Kernel {
        alloc,
        core: Core {
            memory,
            store,
            events,
            snapshot,
        },
    }
}

// Holds the pages of what is to start, and records that it starts.
fn start<D: Disk>(
    disk: &mut D,
    memory: &mut Memory,
    store: &mut Store,
    events: &Events,
    snapshot: &mut Vec<u8>,
) -> Result<(), Down>
    requires up { (D.status disk.old).is_down ≡ false }
    requires pending { (D.status disk.old).pending ≡ 0 }
    requires headed { IfSome (D.told disk.old) (λ s. IsHeaded memory.old.journal.units memory.old.journal.image memory.old.journal.selector s.seen) }
    requires starts { IsStarting memory.old events.now }
    requires sound { AreSoundFiles (page_count memory.old.journal.units) (files_of memory.old.files) }
    requires alone { AreOnDiskAlone (page_count memory.old.journal.units) store.old }
    requires room { area_len memory.old.journal.units ≤ vec_capacity snapshot.old }
    ensures leaves { BeginLeaves events.now (on memory.old (D.told disk.old) (D.status disk.old)) (on memory.new (D.told disk.new) (D.status disk.new)) store.new result }
    ensures kept { vec_capacity snapshot.old ≤ vec_capacity snapshot.new }
{
    memory.hold_pages(store);
    record_start(disk, memory, events, snapshot)
}

// Starts what is to start; or the disk went down, and then the buffers are given back. What each part of memory gives back then is proved
// in `drop`, and not here.
fn begin<D: Disk>(
    alloc: Global,
    disk: &mut D,
    starting: Starting,
    mut store: Store,
    buffers: &mut Buffers,
) -> Result<Kernel, Down>
    requires up { (D.status disk.old).is_down ≡ false }
    requires pending { (D.status disk.old).pending ≡ 0 }
    requires headed { IfSome (D.told disk.old) (λ s. IsHeaded starting.memory.journal.units starting.memory.journal.image starting.memory.journal.selector s.seen) }
    requires roomy { IsRoomy starting.memory.journal starting.events }
    requires starts { IsStarting starting.memory starting.events }
    requires sound { AreSoundFiles (page_count starting.memory.journal.units) (files_of starting.memory.files) }
    requires alone { AreOnDiskAlone (page_count starting.memory.journal.units) store }
    requires room { area_len starting.memory.journal.units ≤ buffers.old.snapshot }
    ensures ok { IfOk result (IsMachineOf starting.events (on starting.memory (D.told disk.old) (D.status disk.old)) (D.told disk.new) (D.status disk.new)) }
    ensures err { OnErr result (IsNoMachine starting.events (on starting.memory (D.told disk.old) (D.status disk.old)) (D.told disk.new) (D.status disk.new)) }
    ensures kept { OnErr result ((starting.events.capacity ≤ buffers.new.log) × (buffers.old.snapshot ≤ buffers.new.snapshot)) }
{
    let Starting { mut memory, events } = starting;
    match start(
        disk,
        &mut memory,
        &mut store,
        &events,
        &mut buffers.snapshot,
    ) {
        Ok(()) => {
            let snapshot = replace(&mut buffers.snapshot, Vec::new(alloc));
            Ok(machine(alloc, memory, store, events, snapshot))
        }
        Err(Down) => {
            drop(memory);
            drop(store);
            buffers.log = events.into_buffer();
            Err(Down)
        }
    }
}

impl Kernel {
    /// Starts the machine from the image of its disk: it reads the snapshot and the groups that are there, brings back what they
    /// come to, and records that it started. It keeps the buffers, and gives them back where it does not start. An image whose
    /// count of boots or of events is near its end is worn, and no machine starts from it.
    pub fn restart<D: Disk>(
        alloc: Global,
        disk: &mut D,
        buffers: &mut Buffers,
    ) -> Result<Restarted, RestartFault>
        requires pending { (D.status disk.old).pending ≡ 0 }
        ensures leaves { RestartLeaves (on buffers.old (D.told disk.old) (D.status disk.old)) (on buffers.new (D.told disk.new) (D.status disk.new)) result }
        ensures calls { DeviceCalls (2 * MOST_UNITS + 27) (D.status disk.old) (D.status disk.new) (restart_went_down result) }
        ensures few { (units image selector : ℕ) → IsSomeAnd (D.told disk.old) (λ s. IsHeaded units image selector s.seen) → (D.status disk.new).calls ≤ (D.status disk.old).calls + (2 * units + 27) }
    {
        law_of_fresh();
        law_of_kept();
        law_of_debts();
        law_of_standing();
        law_of_states();
        law_of_spelling();
        law_of_mapped_states();
        law_of_alike_presents();
        let loaded = match load(alloc, disk, &mut buffers.log) {
            Ok(loaded) => loaded,
            Err(LoadFault::Down) => return Err(RestartFault::Down),
            Err(LoadFault::Bad(offset)) => return Err(RestartFault::Bad(offset)),
            Err(LoadFault::NoMemory) => return Err(RestartFault::NoMemory),
        };
        if is_worn(&loaded.state) {
            drop(loaded);
            return Err(RestartFault::Worn);
        }
        let found = loaded.state.events();
        let in_doubt = in_doubt(&loaded.state);
        buffers.snapshot.clear();
        let Ok(()) = buffers
            .snapshot
            .reserve(loaded.journal.events_room() + FRAME)
        else {
            drop(loaded);
            return Err(RestartFault::NoMemory);
        };
        let Ok(store) = Store::new(alloc, loaded.journal.units()) else {
            drop(loaded);
            return Err(RestartFault::NoMemory);
        };
        let starting = match prepare(alloc, loaded, &mut buffers.log) {
            Ok(starting) => starting,
            Err(NoMemory) => {
                drop(store);
                return Err(RestartFault::NoMemory);
            }
        };
        match begin(alloc, disk, starting, store, buffers) {
            Ok(kernel) => Ok(Restarted {
                kernel,
                events: found,
                in_doubt,
            }),
            Err(Down) => Err(RestartFault::Down),
        }
    }
}

impl Kernel {
    /// Starts a machine that is down again, from its disk, whose power is back; what it held in memory is gone. The reply is
    /// that of a restart: how many events were found; IMAGE_WORN or BAD_IMAGE, and the machine stays down; or MACHINE_DOWN
    /// where the power went again. With IMAGE_WORN, with BAD_IMAGE and out of memory nothing was written, and it can be called
    /// again.
    pub fn start_again<D: Disk>(&mut self, disk: &mut D) -> Result<Reply, NoMemory>
        requires off { self.old.now.machine.is_up ≡ false }
        requires power { (D.status disk.old).is_down ≡ false }
        requires pending { (D.status disk.old).pending ≡ 0 }
        ensures leaves { StartAgainLeaves (on self.old (D.told disk.old) (D.status disk.old)) (on self.new (D.told disk.new) (D.status disk.new)) result }
        ensures calls { DeviceCalls (2 * MOST_UNITS + 27) (D.status disk.old) (D.status disk.new) (D.status disk.new).is_down }
        ensures few { (w : World) → FoundAt self.old (D.told disk.old) w → (D.status disk.new).calls ≤ (D.status disk.old).calls + (2 * w.base.units + 27) }
    {
        law_of_standing();
        law_of_states();
        law_of_bad_images();
        let none = Events::new(self.alloc, 0)?;
        let log = replace(&mut self.core.events, none).into_buffer();
        let snapshot = replace(&mut self.core.snapshot, Vec::new(self.alloc));
        let mut buffers = Buffers { log, snapshot };
        match Kernel::restart(self.alloc, disk, &mut buffers) {
            Ok(restarted) => {
                let kernel = restarted.kernel;
                drop(replace(&mut self.core, kernel.core));
                Ok(Reply::Restarted {
                    events: restarted.events,
                    in_doubt: restarted.in_doubt,
                })
            }
            Err(fault) => {
                self.core.events = events_in(buffers.log, self.core.memory.journal());
                self.core.snapshot = buffers.snapshot;
                answer_of(fault)
            }
        }
    }

    /// The machine ends, and gives back what it holds in memory. What each of its parts gives back is proved here, and not in
    /// the caller.
    pub fn end(self) {
        drop(self);
    }
}
