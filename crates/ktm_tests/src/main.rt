//! Tries tables, and says of each whether it holds. A word names a table, which is a file, and behind the dot its kind: those of
//! `ktm_tables`, and two more.
//!
//! - `ktm`: a script by itself on a new image, whose replies stand in the file of that name that ends in `out`.
//! - `commands`: command lines of the whole program one after another, each with its exit code, over files that it finds and makes
//!   in its folder. What they write comes before the line of the table.
#![tactic(auto)]

mod commands;

use ktm_base::NoMemory;
use ktm_tables::{found, wrong_reply};
use std::{env, fs, io};

fn main(rt: HostRuntime) -> io::Result<()> {
    let alloc = rt.alloc();
    for word in env::args(&rt)?.skip(1) {
        let table = fs::read_to_string(&rt, word.as_str())?;
        let found = match word.strip_suffix(".ktm") {
            Some(name) => {
                let replies = fs::read(&rt, format!(in alloc; "{name}.out")?)?;
                wrong_reply(alloc, &table, &replies)
            }
            None => match kind_of(&word) {
                "commands" => commands::found(alloc, &rt, &table),
                kind => found(alloc, kind, &table),
            },
        };
        match found {
            Ok(None) => println!(rt; "{word} holds")?,
            Ok(Some(what)) => println!(rt; "{word} does not hold: {what}")?,
            Err(NoMemory) => return Err(io::ErrorKind::OutOfMemory.into()),
        }
    }
    Ok(())
}

fn kind_of(word: &str) -> &str {
    match word.split_once('.') {
        Some((_, kind)) => kind,
        None => "",
    }
}
