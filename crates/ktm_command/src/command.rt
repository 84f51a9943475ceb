// The run of the words.
ghost use Rattle.std.specs.Prelude.{◌≡◌, ◌⊎◌, None, map, IfOk, string_bytes};
ghost use Rattle.std.specs.Process.{exit_status};
ghost use Rattle.ktm_run.specs.Form.{form_of};
ghost use Rattle.ktm_command.specs.Command.{number_of};

use crate::files::{disk, script};
use ktm_base::NoMemory;
use ktm_os::StdSink;
use ktm_run::{Status, ktm};
use std::alloc::Global;
use std::fs::File;
use std::process::ExitCode;
use std::rt::{Env, Files};
use std::{env, io};

/// The words after the program's name. Where one of them is no text there are none, which is a faulty command line too.
fn words<R: Env + AllocGlobal>(rt: &R) -> io::Result<Vec<String>> {
    match env::args(rt) {
        Ok(words) => Ok(words.skip(1).collect(rt.alloc())?),
        Err(error) if error.kind() == io::ErrorKind::InvalidData => Ok(Vec::new(rt.alloc())),
        Err(error) => Err(error),
    }
}

/// Runs the words of the program.
pub fn outcome<R: Env + Files<File = File> + Print + AllocGlobal>(
    rt: &R,
) -> Result<Status, NoMemory> {
    match words(rt) {
        Ok(words) => run(rt.alloc(), rt, &words),
        Err(_) => Err(NoMemory),
    }
}

/// Runs these words over the files that the second and the third name, and standard output.
pub fn run<R: Files<File = File> + Print>(
    alloc: Global,
    rt: &R,
    words: &[String],
) -> Result<Status, NoMemory>
    ensures form { IfOk result (λ status.
        form_of (map string_bytes words.now) ≡ None → (status ≡ Status.Usage) ⊎ (status ≡ Status.SinkFault)) }
    ensures usage { IfOk result (λ status. status ≡ Status.Usage → form_of (map string_bytes words.now) ≡ None) }
{
    let mut source = script(alloc, rt, words)?;
    let mut sink = StdSink::new(rt);
    let mut disk = disk(alloc, rt, words)?;
    Ok(ktm(alloc, words, &mut source, &mut sink, &mut disk))
}

/// With which number the program ends.
pub fn exit_code(outcome: Result<Status, NoMemory>) -> ExitCode
    ensures { exit_status result ≡ number_of outcome }
{
    let status = match outcome {
        Ok(status) => status,
        Err(NoMemory) => Status::NoMemory,
    };
    ExitCode::from(status.exit_code())
}
