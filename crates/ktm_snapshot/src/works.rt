// Recorded parts of transactions, whose contents stand on pages.
ghost use Rattle.std.specs.Prelude.{◌≡◌, map, true};
ghost use Rattle.std.specs.List.{list_all};
ghost use Rattle.ktm_snapshot.specs.Works.{IsPlaced, has_page_each, is_of_work, is_work, placed, placed_change, placed_part};

use ktm_base::UNIT_BYTES;
use ktm_content::{Content, Placed};
use ktm_event::EventFault;
use ktm_world::{Change, Changes, Contents, Part};
use std::alloc::Global;

// Has each unit of the contents a page.
fn has_page_each(contents: &Contents) -> bool
    ensures { result ≡ has_page_each contents.now }
{
    match contents {
        Contents::Whole(_) => false,
        Contents::Paged { len, pages } => {
            pages.len() as u64 == u64::from(*len).div_ceil(UNIT_BYTES)
        }
    }
}

// Is it a recorded change of a transaction's work.
fn is_of_work(change: &Change) -> bool
    ensures { result ≡ is_of_work change.now }
{
    match change {
        Change::Put {
            offset,
            contents,
            ..
        } => *offset == 0 && has_page_each(contents),
        Change::Cut { size, pages, .. } => *size == 0 && pages.len() == 0,
        _ => true,
    }
}

// Contents as the places of their bytes, where each unit has a page.
fn placed(contents: Contents) -> Contents
    requires { has_page_each contents ≡ true }
    ensures { result ≡ placed contents }
{
    match contents {
        Contents::Paged { len, pages } => {
            Contents::Whole(Placed::new(Content::on_pages(u64::from(len), pages)))
        }
        contents => contents,
    }
}

fn placed_change(change: Change) -> Change
    requires { is_of_work change ≡ true }
    ensures { result ≡ placed_change change }
{
    match change {
        Change::Put {
            node,
            offset,
            contents,
        } => Change::Put {
            node,
            offset,
            contents: placed(contents),
        },
        change => change,
    }
}

fn placed_changes(alloc: Global, recorded: Changes) -> Result<Changes, EventFault>
    ensures { IsPlaced (list_all is_of_work recorded) (map placed_change recorded) result }
{
    let mut changes = Vec::new(alloc);
    for change in recorded.into_vec() {
        if !is_of_work(&change) {
            return Err(EventFault::NotAnEvent);
        }
        changes.push(placed_change(change))?;
    }
    Ok(Changes::new(changes))
}

/// A recorded part of a transaction, as a state has it. It is none where a file is cut to some bytes, where bytes are put behind the
/// first one, or where there is not one page for each unit of them.
pub(crate) fn placed_part(alloc: Global, recorded: Part) -> Result<Part, EventFault>
    ensures { IsPlaced (is_work recorded) (placed_part recorded) result }
{
    match recorded {
        Part::Changes(recorded) => {
            let changes = placed_changes(alloc, recorded)?;
            Ok(Part::Changes(changes))
        }
        part => Ok(part),
    }
}
