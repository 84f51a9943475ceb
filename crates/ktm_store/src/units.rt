// Units of contents that are put on pages which were free.
ghost use Rattle.std.specs.Prelude.{◌≡◌, ◌+◌, ◌<◌, ◌≤◌, [], Some, length, set};
ghost use Rattle.ktm_store.specs.Change.{frames_from, unit_of};
ghost use Rattle.ktm_store.specs.Filling.{AreWhole, TookPage, TookUnits, pool_of};
ghost use Rattle.ktm_store.specs.Marks.{free_ahead};
ghost use Rattle.ktm_store.specs.Pool.{AreSomewhere};

use crate::change::Change;
use crate::frames::Frames;
use crate::marks::Marks;
use crate::stored::Stored;

// Puts a unit on a page. One of zeros alone takes no frame.
fn put_unit(frames: &mut Frames, change: &Change<'_>, unit: u64, page: u32)
    requires below { page < length frames.old.kept }
    requires first { change.now.first ≤ unit }
    requires behind { unit < change.now.behind }
    requires spare { frames_from change.now unit ≤ frames.old.spare }
    ensures kept { frames.new.kept ≡ set frames.old.kept page (Some (unit_of change.now unit)) }
    ensures spare { frames_from change.now (unit + 1) ≤ frames.new.spare }
{
    let head = change.head_in(unit);
    let bytes = change.bytes_in(unit);
    let tail = change.tail_in(unit);
    if head.is_empty() && bytes.is_empty() && tail.is_empty() {
        frames.blank(page);
        return;
    }
    frames.put(page, head, change.from_in(unit), bytes, tail);
}

// Takes a page that is free, and puts a unit on it.
fn take_unit(
    frames: &mut Frames,
    marks: &mut Marks,
    stored: &mut Stored,
    change: &Change<'_>,
    unit: u64,
) -> u32
    requires whole { AreWhole (pool_of frames.old marks.old stored.old) }
    requires none { stored.old.wanted ≡ [] }
    requires free { 0 < free_ahead marks.old }
    requires first { change.now.first ≤ unit }
    requires behind { unit < change.now.behind }
    requires spare { frames_from change.now unit ≤ frames.old.spare }
    ensures took { TookPage (unit_of change.now unit) (pool_of frames.old marks.old stored.old) result (pool_of frames.new marks.new stored.new) }
    ensures spare { frames_from change.now (unit + 1) ≤ frames.new.spare }
{
    let Some(page) = marks.take() else {
        unreachable!();
    };
    stored.forget(page);
    put_unit(frames, change, unit, page);
    page
}

/// Takes a page for each unit that changes. It takes no memory but the frames that are spare.
pub(crate) fn take_units(
    frames: &mut Frames,
    marks: &mut Marks,
    stored: &mut Stored,
    change: &Change<'_>,
    pages: &mut [u32],
)
    requires whole { AreWhole (pool_of frames.old marks.old stored.old) }
    requires some { AreSomewhere (pool_of frames.old marks.old stored.old) }
    requires none { stored.old.wanted ≡ [] }
    requires many { change.now.first + length pages.old ≡ change.now.behind }
    requires free { length pages.old ≤ free_ahead marks.old }
    requires spare { frames_from change.now change.now.first ≤ frames.old.spare }
    ensures took { TookUnits (unit_of change.now) change.now.first pages.new (pool_of frames.old marks.old stored.old) (pool_of frames.new marks.new stored.new) }
    ensures whole { AreWhole (pool_of frames.new marks.new stored.new) }
    ensures some { AreSomewhere (pool_of frames.new marks.new stored.new) }
{
    let first = change.first();
    for i in 0..pages.len() {
        pages[i] = take_unit(frames, marks, stored, change, first + i as u64);
    }
}
