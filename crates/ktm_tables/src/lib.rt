//! Tables of scripts, which run on images in memory. A table has one of these kinds:
//!
//! - `rows`: runs one after another on one image, which has 16 units at first; and `blank`, where it has no byte at first.
//! - `cuts`: a script whose last line records something, and what is seen where the power goes in that line.
//! - `compactions`: the same of a line for which the log has no room.
//! - `bytes`: the bytes of an image that a script leaves.
//! - `images`: what is read of an image that a script leaves, where some of its bytes are changed.
//! - `snapshots`: a snapshot of a state, and what is read of it where pieces of it are others.
//! - `dumps`: what is left of an image where the power goes in each call of the disk, at some places of a script.
//! - `faults`: a script that is run with the first, the second, and so on to the last call of a device failing.
//! - `costs`: two scripts that make equally many calls of the disk.
//! - `forms`: command lines of every form one after another on one image, which has no byte at first, and what each writes.
//!
//! A row is `LINE => REPLY`, or a line without a reply. A table has parts, with an empty line between them.
#![tactic(auto)]

mod cuts;
mod dumps;
mod faults;
mod forms;
mod images;
mod run;
mod snapshots;
mod transcript;

use crate::run::{NO_FAIL, blank, first_difference, follow, run, small_image};
use ktm_base::NoMemory;
use ktm_mem::MemBlock;
use ktm_run::Status;
use std::alloc::Global;

/// What does not hold of a table of this kind, if anything.
pub fn found(alloc: Global, kind: &str, table: &str) -> Result<Option<String>, NoMemory> {
    match kind {
        "rows" => runs(alloc, table, small_image(alloc)?),
        "blank" => runs(alloc, table, blank(alloc)?),
        "cuts" => cuts::found(alloc, table),
        "compactions" => cuts::found_in_compaction(alloc, table),
        "bytes" => images::bytes_found(alloc, table),
        "images" => images::found(alloc, table),
        "snapshots" => snapshots::found(alloc, table),
        "dumps" => dumps::found(alloc, table),
        "faults" => faults::found(alloc, table),
        "costs" => faults::costs_found(alloc, table),
        "forms" => forms::found(alloc, table),
        _ => Ok(Some(String::from_str(alloc, "a table of no kind")?)),
    }
}

/// The first reply of a script on a new image that is not the one that is wanted, if any.
pub fn wrong_reply(
    alloc: Global,
    script: &str,
    replies: &[u8],
) -> Result<Option<String>, NoMemory> {
    let outcome = run(alloc, script.as_bytes(), blank(alloc)?, NO_FAIL)?;
    if outcome.status == Status::Done && outcome.sink.bytes() == replies {
        return Ok(None);
    }
    Ok(Some(first_difference(alloc, outcome.sink.bytes(), replies)?))
}

// The runs of the parts, each on the image that the one before left.
fn runs(alloc: Global, table: &str, image: MemBlock) -> Result<Option<String>, NoMemory> {
    let mut image = image;
    for part in table.split("\n\n") {
        let (left, what) = follow(alloc, part, image)?;
        if what.is_some() {
            return Ok(what);
        }
        image = left;
    }
    Ok(None)
}
