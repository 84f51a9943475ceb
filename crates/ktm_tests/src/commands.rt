// Command lines of the program, over files of the system and standard output.
use ktm_base::NoMemory;
use ktm_command::{exit_code, run};
use std::alloc::Global;
use std::fs::File;
use std::process::ExitCode;
use std::rt::Files;

/// What does not hold of a table of command lines. A row is `WORDS => CODE`: with these words behind its name the program ends
/// with this exit code. What it writes comes to standard output.
pub fn found<R: Files<File = File> + Print>(
    alloc: Global,
    rt: &R,
    table: &str,
) -> Result<Option<String>, NoMemory> {
    for row in table.lines() {
        let (words, code) = row.split_once(" => ").unwrap_or((row, ""));
        if !ends_with(alloc, rt, words, code.parse::<u8>().unwrap_or(0))? {
            return Ok(Some(String::from_str(alloc, row)?));
        }
    }
    Ok(None)
}

// Does the program end with this exit code.
fn ends_with<R: Files<File = File> + Print>(
    alloc: Global,
    rt: &R,
    line: &str,
    code: u8,
) -> Result<bool, NoMemory> {
    let mut words = Vec::new(alloc);
    for word in line.split(' ') {
        words.push(String::from_str(alloc, word)?)?;
    }
    Ok(exit_code(run(alloc, rt, &words)) == ExitCode::from(code))
}
