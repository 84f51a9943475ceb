//! Tries tables of what a single crate is asked and answers, and says of each whether it holds. A word names a table, which is a
//! file, and behind the dot its kind:
//!
//! - `lines`, `replies`: a text, and whether it is a line of a script, or a reply; what is read is also written again.
//! - `events`, `groups`: bytes, as digits, and the event or the group that they are.
//! - `picks`: the number of a pick, and what a loss of power leaves of a disk by it.
//! - `losses`: the number of a pick, and what a disk keeps by it of the same bytes where a sync had failed, and lost them.
//! - `calls`: the number of the first call of a file that fails, and the calls that a block makes over it.
//! - `disks`: the same number, and the calls that a disk over the block makes.
//! - `plain`: a path, and of the disk in the file there, once it has made two bytes stay: what length a second disk over the file
//!   finds, and what length and which bytes a third one, once the first is dropped.
//! - `spaces`: which four pages are free, and which are taken, with how many are free before and behind; the last one is given then,
//!   and all are taken once more.
//! - `rows`: steps over a row of four pages, of each the first and the last byte of the page that is read, or `written`, and then
//!   whether anything waits behind a sync. A step is `PAGE`, which is read, or `PAGE FIRST`, which is written with bytes that count
//!   from the first one on, and begin at 0 again behind 250.
//! - `cached`: the device call at which the power goes, counted from 0, and such steps through a cache, of which one may be `down`.
//! - `extents`: steps over contents of a file and a copy of them, and of each the bytes that are read, or how many pages are free
//!   then, or `down`: `write AT LEN FIRST`, `grow LEN`, `cut LEN`, `copy`, `swap`, after which the copy is what the steps are on,
//!   `read AT LEN`, and `fail CALL AT LEN FIRST`, a write in which the power goes at the device call with this number, counted
//!   from 0, and comes back.
//!
//! A row is `ASKED => ANSWER`.
#![tactic(auto)]

mod answers;
mod events;
mod extents;
mod files;
mod losses;
mod pages;
mod picks;
mod plain;
mod texts;
mod words;

use ktm_base::NoMemory;
use std::{env, fs, io};

fn main(rt: HostRuntime) -> io::Result<()> {
    for word in env::args(&rt)?.skip(1) {
        let table = fs::read_to_string(&rt, word.as_str())?;
        let (_, kind) = word.split_once('.').unwrap_or((word.as_str(), ""));
        match answers::found(rt.alloc(), &rt, kind, &table) {
            Ok(None) => println!(rt; "{word} holds")?,
            Ok(Some(what)) => println!(rt; "{word} does not hold: {what}")?,
            Err(NoMemory) => return Err(io::ErrorKind::OutOfMemory.into()),
        }
    }
    Ok(())
}
