// The pages of contents: what is seen of a file, which pages are in use, and which are to be on the disk before they are named there.
ghost use Rattle.std.specs.Prelude.{◌≡◌, ◌+◌, ◌*◌, ◌≤◌, All, length, sum_by};
ghost use Rattle.std.specs.List.{flat_map};
ghost use Rattle.ktm_content.specs.Contents.{units_of};
ghost use Rattle.ktm_each.specs.Each.{EachOfChange};
ghost use Rattle.ktm_event.specs.Work.{changes_of_file, final_file};
ghost use Rattle.ktm_memory.specs.Settled.{left_to_do};
ghost use Rattle.ktm_memory.specs.Memory.{present_of};
ghost use Rattle.ktm_memory.specs.Rules.{PutsAlone};
ghost use Rattle.ktm_memory.specs.Stored.{AreEventsStored, EventsLieBelow, FilesLieBelow, HoldsFiles, NamesBelow, NamesStored, pages_named, units_of_change, units_put};
ghost use Rattle.ktm_store.specs.Store.{IsStoredAt, WantsMore};
ghost use Rattle.ktm_world.specs.Changes.{bytes_in};
ghost use Rattle.ktm_world.specs.Files.{bytes_seen};
ghost use Rattle.txf_volume.specs.Held.{files_of};

use crate::memory::Memory;
use crate::settlement::Settlement;
use ktm_base::Id;
use ktm_content::PlacedRef;
use ktm_course::records_files;
use ktm_event::{FilePages, WrittenFiles};
use ktm_steps::law_of_events_ahead;
use ktm_store::Store;
use ktm_world::{Change, Contents};
use txf_calls::Volume;

// The pages of contents are wanted.
fn want_contents(contents: &Contents, store: &mut Store)
    requires { All (λ place. place ≤ length store.old.marks.held * 4096) (bytes_in contents.now) }
    ensures wants { WantsMore store.old store.new }
    ensures stored { All (IsStoredAt store.new.stored) (bytes_in contents.now) }
    ensures few { length store.new.wanted ≤ length store.old.wanted + units_of (bytes_in contents.now) }
{
    match contents {
        Contents::Whole(units) => store.want(units.lend()),
        Contents::Paged { .. } => {}
    }
}

// The pages of what a change puts are wanted.
fn want_change(change: &Change, store: &mut Store)
    requires { EachOfChange (λ file index place. place ≤ length store.old.marks.held * 4096) change.now }
    ensures wants { WantsMore store.old store.new }
    ensures stored { EachOfChange (λ file index place. IsStoredAt store.new.stored place) change.now }
    ensures few { length store.new.wanted ≤ length store.old.wanted + units_of_change change.now }
{
    if let Change::Put { contents, .. } = change {
        want_contents(contents, store);
    }
}

// The pages of a file that a transaction wrote are wanted.
fn want_file(file: &FilePages<'_>, store: &mut Store)
    requires { All (NamesBelow (length store.old.marks.held)) (changes_of_file (final_file file.now)) }
    ensures wants { WantsMore store.old store.new }
    ensures stored { All (NamesStored store.new.stored) (changes_of_file (final_file file.now)) }
    ensures few { length store.new.wanted ≤ length store.old.wanted + sum_by pages_named (changes_of_file (final_file file.now)) }
{
    if file.len == 0 {
        return;
    }
    store.want_pages(file.pages);
}

// The pages of all that it wrote are wanted.
fn want_written<F: WrittenFiles>(files: &F, store: &mut Store)
    requires { All (NamesBelow (length store.old.marks.held)) (flat_map changes_of_file (F.files files.now)) }
    ensures wants { WantsMore store.old store.new }
    ensures stored { All (NamesStored store.new.stored) (flat_map changes_of_file (F.files files.now)) }
    ensures few { length store.new.wanted ≤ length store.old.wanted + sum_by pages_named (flat_map changes_of_file (F.files files.now)) }
{
    let mut next = files.first();
    while let Some(file) = next {
        next = files.behind(file.file);
        want_file(&file, store);
    }
}

impl Memory {
    /// The bytes of a file that a transaction sees, or a plain call: the place of each.
    pub fn bytes_seen(&self, who: Option<Id>, file: u64) -> PlacedRef<'_>
        ensures { result ≡ bytes_seen (files_of self.now.files) who file }
    {
        self.files.bytes(who, file)
    }

    /// Holds the pages of all contents: of the committed files, of what transactions wrote, and of the older versions that they
    /// opened.
    pub fn hold_pages(&self, store: &mut Store)
        requires { FilesLieBelow (length store.old.marks.held) (files_of self.now.files) }
        ensures { HoldsFiles (files_of self.now.files) store.old store.new }
    {
        self.files.hold_pages(store);
    }

    /// Has each page wanted that is not stored yet and that the events of what is left to do name: at most one for each unit that
    /// they put. No byte is copied, and no memory is taken.
    pub fn want_pages(&self, settlement: &Settlement, store: &mut Store)
        requires files { FilesLieBelow (length store.old.marks.held) (files_of self.now.files) }
        requires events { EventsLieBelow (length store.old.marks.held) (left_to_do (present_of self.now) settlement.now).events }
        requires puts { PutsAlone (present_of self.now) settlement.now }
        ensures wants { WantsMore store.old store.new }
        ensures stored { AreEventsStored store.new.stored (left_to_do (present_of self.now) settlement.now).events }
        ensures few { length store.new.wanted ≤ length store.old.wanted + units_put (left_to_do (present_of self.now) settlement.now).events }
    {
        match settlement {
            Settlement::Change { plan, .. } => {
                if let Some(change) = &plan.change {
                    want_change(change, store);
                }
            }
            Settlement::Course {
                transaction,
                steps,
                ..
            } => {
                if records_files(steps.as_slice()) {
                    law_of_events_ahead();
                    want_written(&self.files.written(transaction.id), store);
                }
            }
            _ => {}
        }
    }
}
