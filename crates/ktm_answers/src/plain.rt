// A plain disk over a file of the system.
use crate::files::change_disk;
use crate::words::{digits, owned, say};
use ktm_base::{Disk, Down, NoMemory};
use ktm_os::open_disk;
use std::alloc::Global;
use std::fs::File;
use std::rt::Files;

// The length of a disk, or that it is down.
fn length_of<D: Disk>(alloc: Global, disk: &mut D) -> Result<String, NoMemory> {
    match disk.len() {
        Ok(len) => Ok(format!(in alloc; "{len}")?),
        Err(Down) => owned(alloc, "down"),
    }
}

/// Makes two bytes stay on the disk in this file, and says what a second disk over it answers meanwhile, and a third one behind.
pub fn kept_in<R: Files<File = File>>(
    alloc: Global,
    rt: &R,
    path: &str,
) -> Result<String, NoMemory> {
    let mut text = String::new(alloc);
    {
        let mut first = open_disk(alloc, rt, owned(alloc, path)?)?;
        let _ = change_disk(&mut first);
        let mut second = open_disk(alloc, rt, owned(alloc, path)?)?;
        say(&mut text, &length_of(alloc, &mut second)?)?;
    }
    let mut third = open_disk(alloc, rt, owned(alloc, path)?)?;
    say(&mut text, &length_of(alloc, &mut third)?)?;
    let mut bytes = [0xff; 8];
    let _ = third.read_at(0, &mut bytes);
    say(&mut text, &digits(alloc, &bytes)?)?;
    Ok(text)
}
