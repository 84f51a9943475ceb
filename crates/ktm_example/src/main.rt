//! An installer: two files and the version of a program change together, or not at all, in an image that is a file of the folder
//! in which it runs.
#![tactic(auto)]

mod install;

use install::{Entry, Release, install};
use std::alloc::Global;
use wattorju::{Bytes, Disk, Machine, NotOpened, Opened, Text, open_disk};

// A path or a key, with the version as its contents.
fn entry(alloc: Global, name: &str, version: u8) -> anyhow::Result<Entry> {
    Ok(Entry {
        name: Text::new(alloc, name)?,
        contents: Bytes::new(vec![in alloc; version]?),
    })
}

// Says which version is found, and installs the next one.
fn run<D: Disk>(rt: &(impl Print + AllocGlobal), machine: &mut Machine<D>) -> anyhow::Result<()> {
    let alloc = rt.alloc();
    let found = match machine.get_committed(Text::new(alloc, "version")?)? {
        Some(version) => version.as_slice().first().copied().unwrap_or(0),
        None => 0,
    };
    println!(rt; "found version {found}")?;
    let next = found.saturating_add(1);
    let release = Release {
        program: entry(alloc, "\\program", next)?,
        manual: entry(alloc, "\\manual", next)?,
        version: entry(alloc, "version", next)?,
    };
    println!(rt; "version {next}: {:?}", install(machine, release)?)?;
    Ok(())
}

fn main(rt: HostRuntime) -> anyhow::Result<()> {
    let alloc = rt.alloc();
    let path = String::from_str(alloc, "example.image")?;
    let disk = open_disk(alloc, &rt, path)?;
    match Machine::open(alloc, disk) {
        Ok(Opened { mut machine, .. }) => {
            let done = run(&rt, &mut machine);
            drop(machine.close());
            done
        }
        Err(NotOpened { fault, .. }) => Err(fault.into()),
    }
}
