// The journal of an image, and how it grows.
ghost use Rattle.std.specs.Prelude.{◌^◌, ◌≡◌, ℕ, ◌+◌, ◌-◌, ◌*◌, ◌<◌, ◌≤◌, List, [], ◌∷◌, length, OnOk, OnErr, false, is_err, IfSome, IsSomeAnd};
ghost use Rattle.ktm_base.specs.declared.limits.TheConstants.{LEAST_UNITS, MOST_UNITS, MOST_PENDING, UNIT_BYTES};
ghost use Rattle.ktm_base.specs.Told.{Goes};
ghost use Rattle.ktm_base.specs.Disk.{DeviceCalls, IsSafe, OnlyReads};
ghost use Rattle.ktm_log.specs.OnDisk.{on};
ghost use Rattle.ktm_page.specs.Row.{page_of};
ghost use Rattle.ktm_world.specs.Groups.{Group};
ghost use Rattle.ktm_world.specs.Sizes.{area_len, frame_size};
ghost use Rattle.ktm_journal.specs.Append.{RecordLeaves};
ghost use Rattle.ktm_journal.specs.Compact.{CompactLeaves};
ghost use Rattle.ktm_journal.specs.Format.{Anything};
ghost use Rattle.ktm_journal.specs.Image.{IsHeaded, IsImage, empty_snapshot, page_count, row_of};
ghost use Rattle.ktm_journal.specs.Open.{OpenLeaves};
ghost use Rattle.ktm_journal.specs.Pages.{JournalBut, PageTorn, PageWritten};

use crate::half::half_of;
use crate::image::{SELECTOR_AT, area_len, lay, log_area, page_at, put_header};
use crate::snapshot::lay_half;
use crate::{Header, LoadFault};
use ktm_base::{Disk, Down};
use ktm_event::Events;
use ktm_log::{AppendFault, Log, LogFault, settle};
use std::marker::Model;

// How many bytes a frame takes beside its events: a gate, a length of four bytes, and a count of four.
const FRAME: usize = 9;

/// The groups of an image. It knows which half counts and where in its log the next one goes, and none of them.
#[derive(Drop)]
pub struct Journal {
    units: u32,
    image: u16,
    selector: u8,
    log: Log,
    events: u64,
}

impl Model for Journal {
    ghost use Rattle.std.specs.Prelude.{◌≡◌, ◌+◌, ◌^◌, ◌≤◌};
    ghost use Rattle.ktm_base.specs.declared.limits.TheConstants.{MOST_UNITS};
    ghost use Rattle.ktm_journal.specs.Image.{JournalState, half_of, log_area};

    ghost Value = { JournalState };

    ghost view = { λ j. record { units = j.units; image = j.image; selector = j.selector; log = j.log; events = j.events } };

    ghost invariant = { λ j. (j.units ≤ MOST_UNITS) × (j.log.area ≡ log_area j.units (half_of j.selector)) × (j.events ≤ 2 ^ 63 + j.log.end) };
}

impl Journal {
    /// Makes the disk a new image, whatever it held. It takes no memory, and makes eight device calls at most. A format that the power
    /// ended leaves an image that may stand for nothing.
    pub fn format<D: Disk>(disk: &mut D, units: u32, image: u16) -> Result<(), Down>
        requires from { LEAST_UNITS ≤ units }
        requires to { units ≤ MOST_UNITS }
        requires pending { (D.status disk.old).pending ≡ 0 }
        ensures ok { OnOk result (Goes (λ old new. IsSafe new × IsImage units image empty_snapshot [] new.seen) (D.told disk.old) (D.told disk.new)) }
        ensures down { OnErr result (Goes Anything (D.told disk.old) (D.told disk.new)) }
        ensures pending { OnOk result ((D.status disk.new).pending ≡ 0) }
        ensures up { OnOk result ((D.status disk.new).is_down ≡ false) }
        ensures calls { DeviceCalls 8 (D.status disk.old) (D.status disk.new) (is_err result) }
    {
        if let Err(Down) = lay(disk, units) {
            return Err(Down);
        }
        if let Err(Down) = put_header(disk, units, image) {
            return Err(Down);
        }
        Ok(())
    }

    /// Reads the log of the half that counts into the buffer, which is made as long as the log's area, and afterwards has room for
    /// whatever can be appended. It writes nothing. The payloads stay in the buffer, where `first_payload` of `ktm_log` finds
    /// them; where a frame is torn, those before it. No event is counted so far (`count_from`).
    pub fn open<D: Disk>(
        disk: &mut D,
        header: Header,
        buffer: &mut Vec<u8>,
    ) -> Result<Journal, LoadFault>
        requires least { LEAST_UNITS ≤ header.units }
        requires most { header.units ≤ MOST_UNITS }
        requires headed { IfSome (D.told disk.old) (λ s. IsHeaded header.units header.image header.selector s.seen) }
        ensures { OpenLeaves header (on buffer.old (D.told disk.old) (D.status disk.old)) (on buffer.new (D.told disk.new) (D.status disk.new)) result }
    {
        let area = log_area(header.units, half_of(header.selector));
        match Log::scan(disk, area, buffer) {
            Ok(log) => Ok(Journal {
                units: header.units,
                image: header.image,
                selector: header.selector,
                log,
                events: 0,
            }),
            Err(LogFault::Bad(offset)) => Err(LoadFault::Bad(offset)),
            Err(LogFault::Down) => Err(LoadFault::Down),
            Err(LogFault::NoMemory) => Err(LoadFault::NoMemory),
        }
    }

    /// Counts events from so many on, which the snapshot and the log have together.
    pub fn count_from(&mut self, events: u64)
        requires { events ≤ 2 ^ 63 }
        ensures { self.new ≡ record self.old { events = events } }
    {
        self.events = events;
    }

    /// Records events as one group: once it is answered no loss of power takes it. It takes no memory and copies nothing, and
    /// makes four device calls.
    pub fn append<D: Disk>(&mut self, disk: &mut D, events: &Events) -> Result<(), AppendFault>
        requires pending { (D.status disk.old).pending < MOST_PENDING }
        requires headed { IfSome (D.told disk.old) (λ s. IsHeaded self.old.units self.old.image self.old.selector s.seen) }
        requires some { 1 ≤ events.now.count }
        ensures { RecordLeaves events.now (on self.old (D.told disk.old) (D.status disk.old)) (on self.new (D.told disk.new) (D.status disk.new)) result }
    {
        if let Err(fault) = self.log.append(disk, events.body()) {
            return Err(fault);
        }
        self.events += u64::from(events.len());
        Ok(())
    }

    /// Lets this snapshot stand for all that the journal holds, with a log that is empty: it goes to the half that does not
    /// count, which counts from then on. The half in use is not written. It takes no memory, and makes six device calls.
    pub fn compact<D: Disk>(&mut self, disk: &mut D, snapshot: &[u8]) -> Result<(), Down>
        requires fits { 8 + length snapshot.now ≤ area_len self.old.units }
        requires counted { self.old.events ≤ 2 ^ 63 }
        requires pending { (D.status disk.old).pending ≡ 0 }
        requires headed { IfSome (D.told disk.old) (λ s. IsHeaded self.old.units self.old.image self.old.selector s.seen) }
        ensures { CompactLeaves snapshot.now (on self.old (D.told disk.old) (D.status disk.old)) (on self.new (D.told disk.new) (D.status disk.new)) result }
    {
        let selector = self.selector.wrapping_add(1);
        let half = half_of(selector);
        if let Err(Down) = lay_half(disk, self.units, half, snapshot) {
            return Err(Down);
        }
        if let Err(Down) = settle(disk, SELECTOR_AT, &[selector]) {
            return Err(Down);
        }
        let log = Log::empty(log_area(self.units, half));
        self.selector = selector;
        self.log = log;
        Ok(())
    }

    /// Fills the buffer with the bytes of a page.
    pub fn read_page<D: Disk>(&self, disk: &mut D, page: u32, buf: &mut [u8]) -> Result<(), Down>
        requires within { page < page_count self.now.units }
        requires whole { length buf.old ≡ UNIT_BYTES }
        requires headed { IfSome (D.told disk.old) (λ s. IsHeaded self.now.units self.now.image self.now.selector s.seen) }
        ensures value { OnOk result (IfSome (D.told disk.old) (λ s. buf.new ≡ page_of (row_of self.now.units s.seen) page)) }
        ensures reads { OnlyReads 1 (D.told disk.old) (D.told disk.new) (D.status disk.old) (D.status disk.new) (is_err result) }
        ensures up { OnOk result ((D.status disk.new).is_down ≡ false) }
    {
        if let Err(Down) = disk.read_at(page_at(self.units, page), buf) {
            return Err(Down);
        }
        Ok(())
    }

    /// Writes over a page, in one device call. Until a sync a loss of power may leave anything in it, and where it answers Down
    /// the page may hold anything; all else of the image is as it was.
    pub fn write_page<D: Disk>(&self, disk: &mut D, page: u32, bytes: &[u8]) -> Result<(), Down>
        requires within { page < page_count self.now.units }
        requires whole { length bytes.now ≡ UNIT_BYTES }
        requires pending { (D.status disk.old).pending < MOST_PENDING }
        requires headed { IfSome (D.told disk.old) (λ s. IsHeaded self.now.units self.now.image self.now.selector s.seen) }
        ensures ok { OnOk result (Goes (PageWritten self.now.units page bytes.now) (D.told disk.old) (D.told disk.new)) }
        ensures err { OnErr result (Goes (PageTorn self.now.units page) (D.told disk.old) (D.told disk.new)) }
        ensures kept { (pages snapshot : List ℕ) (log : List Group) → IsSomeAnd (D.told disk.old) (JournalBut pages self.now snapshot log) → IsSomeAnd (D.told disk.new) (JournalBut (page ∷ pages) self.now snapshot log) }
        ensures headed { IfSome (D.told disk.new) (λ s. IsHeaded self.now.units self.now.image self.now.selector s.seen) }
        ensures pending { (D.status disk.new).pending ≤ (D.status disk.old).pending + 1 }
        ensures up { OnOk result ((D.status disk.new).is_down ≡ false) }
        ensures calls { DeviceCalls 1 (D.status disk.old) (D.status disk.new) (is_err result) }
    {
        if let Err(Down) = disk.write_at(page_at(self.units, page), bytes) {
            return Err(Down);
        }
        Ok(())
    }

    /// How many bytes of the log are left for a frame, behind which a closed gate has to stand.
    pub fn spare(&self) -> u64
        ensures { self.now.log.end + result + 1 ≡ self.now.log.area.len }
    {
        self.log.spare()
    }

    /// How many bytes of the log are left.
    pub fn left(&self) -> u64
        ensures left { result ≡ self.now.log.area.len - self.now.log.end }
        ensures within { result ≤ area_len self.now.units }
    {
        self.log.spare() + 1
    }

    /// How long a list of events may become, in bytes: the log's area without what a frame has beside its events.
    pub fn events_room(&self) -> usize
        ensures { result + frame_size [] ≡ area_len self.now.units }
    {
        area_len(self.units) as usize - FRAME
    }

    /// How many events were ever recorded: as many as it was told to count from, and those that were appended since.
    pub fn events(&self) -> u64
        ensures { result ≡ self.now.events }
    {
        self.events
    }

    /// The size that it was made with.
    pub fn units(&self) -> u32
        ensures { result ≡ self.now.units }
    {
        self.units
    }

    /// The number that it was made with.
    pub fn image(&self) -> u16
        ensures { result ≡ self.now.image }
    {
        self.image
    }
}
