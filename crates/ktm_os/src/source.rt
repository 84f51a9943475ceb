// A source over a file.
ghost use Rattle.std.specs.Prelude.{◌≡◌, ◌≤◌, None, IfOk, length};
ghost use Rattle.ktm_base.specs.Stream.{Faults};
ghost use Rattle.ktm_os.specs.Count.{counted};
ghost use Rattle.ktm_os.specs.LateFile.{IsSameFile};

use crate::access::Access;
use crate::count::count_failure;
use crate::interrupted::read_some;
use crate::late_file::LateFile;
use ktm_base::{Failed, Source};
use std::fs::File;
use std::io;
use std::rt::Files;

/// The bytes of a file, from its start on. It is opened at the first read.
#[derive(Drop)]
pub struct FileSource<R> {
    file: LateFile<R>,
    faults: u64,
}

impl<R: Files<File = File>> FileSource<R> {
    ghost use Rattle.std.specs.Prelude.{string_bytes};
    ghost use Rattle.ktm_os.specs.Path.{path_of_source};

    pub fn new(rt: R, path: String) -> FileSource<R>
        ensures faults { result.faults ≡ 0 }
        ensures rt { result.file.rt ≡ rt }
        ensures path { path_of_source result ≡ string_bytes path }
        ensures access { result.file.access ≡ Access.Read }
    {
        FileSource {
            file: LateFile::new(rt, path, Access::Read),
            faults: 0,
        }
    }

    /// How often it failed.
    pub fn faults(&self) -> u64
        ensures { result ≡ self.now.faults }
    {
        self.faults
    }
}

impl<R: Files<File = File>> Source for FileSource<R> {
    ghost left = { λ _. None };

    ghost faults = { λ s. s.faults };

    fn read(&mut self, buf: &mut [u8]) -> Result<usize, Failed>
        ensures count { IfOk result (λ n. n ≤ length buf.old) }
        ensures faults { Faults self.old.faults self.new.faults result }
        ensures counts { self.new.faults ≡ counted result self.old.faults }
        ensures same { IsSameFile self.old.file self.new.file }
    {
        count_failure(read_file(&mut self.file, buf), &mut self.faults)
    }
}

fn read_file<R: Files<File = File>>(file: &mut LateFile<R>, buf: &mut [u8]) -> io::Result<usize>
    ensures count { IfOk result (λ n. n ≤ length buf.old) }
    ensures same { IsSameFile file.old file.new }
{
    file.open()?;
    read_some(&mut file.opened(), buf)
}
