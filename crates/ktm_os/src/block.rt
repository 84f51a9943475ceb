// A block device over a file.
ghost use Rattle.std.specs.Prelude.{◌≡◌, ◌≤◌, ◌+◌, true, false, [], ◌∷◌, length, slice_range, IfOk, OnOk, OnErr, IfSome};
ghost use Rattle.ktm_base.specs.Bytes.{written, SameOutside, GrewTo, GrewTowards};
ghost use Rattle.ktm_base.specs.Stream.{Faults};
ghost use Rattle.ktm_base.specs.Told.{Goes};
ghost use Rattle.ktm_os.specs.Count.{counted, IsOneMore};

use crate::access::Access;
use crate::count::count_failure;
use crate::image::Image;
use crate::image_file::ImageFile;
use crate::late_file::LateFile;
use ktm_base::{Block, Failed};
use std::fs::File;
use std::rt::Files;

/// A block device in a file, which nobody else changes. A range that passes the file's end is a failure.
#[derive(Drop)]
pub struct FileBlock<F: ImageFile> {
    image: Image<F>,
    faults: u64,
}

impl<R: Files<File = File>> FileBlock<LateFile<R>> {
    ghost use Rattle.std.specs.Prelude.{string_bytes};
    ghost use Rattle.ktm_os.specs.Path.{path_of_block};

    /// In the file of this path, which is opened at the first call, and made, empty, where there is none.
    pub fn new(rt: R, path: String) -> FileBlock<LateFile<R>>
        ensures faults { result.faults ≡ 0 }
        ensures rt { result.image.file.rt ≡ rt }
        ensures path { path_of_block result ≡ string_bytes path }
        ensures access { result.image.file.access ≡ Access.Change }
        ensures waits { result.image.waits ≡ true }
    {
        FileBlock::over(LateFile::new(rt, path, Access::Change))
    }

    /// In the file of this path, which is opened at the first call, and for reading alone: it is neither made nor locked, and
    /// a call that changes it fails.
    pub fn reading(rt: R, path: String) -> FileBlock<LateFile<R>>
        ensures faults { result.faults ≡ 0 }
        ensures rt { result.image.file.rt ≡ rt }
        ensures path { path_of_block result ≡ string_bytes path }
        ensures access { result.image.file.access ≡ Access.Read }
        ensures waits { result.image.waits ≡ true }
    {
        FileBlock::over(LateFile::new(rt, path, Access::Read))
    }
}

impl<F: ImageFile> FileBlock<F> {
    /// In this file. What is found in it may wait for a sync, since its writer may have been stopped.
    pub fn over(file: F) -> FileBlock<F>
        ensures faults { result.faults ≡ 0 }
        ensures file { result.image.file ≡ file }
        ensures waits { result.image.waits ≡ true }
    {
        FileBlock {
            image: Image::new(file),
            faults: 0,
        }
    }

    /// The file below.
    pub fn file(&self) -> &F
        ensures { result.now ≡ self.now.image.file }
    {
        &self.image.file
    }

    /// How often it failed.
    pub fn faults(&self) -> u64
        ensures { result ≡ self.now.faults }
    {
        self.faults
    }
}

/// No byte counts as doubted, since no contract can say what the system loses where a sync fails.
impl<F: ImageFile> Block for FileBlock<F> {
    ghost contents = { λ b. F.contents b.image.file };

    ghost faults = { λ b. b.faults };

    ghost waits = { λ b. b.image.waits };

    ghost is_doubted = { λ b place. false };

    fn len(&mut self) -> Result<u64, Failed>
        ensures value { IfOk result (λ n. IfSome (F.contents self.old.image.file) (λ bytes. n ≡ length bytes)) }
        ensures same { F.contents self.new.image.file ≡ F.contents self.old.image.file }
        ensures waits { self.new.image.waits ≡ self.old.image.waits }
        ensures faults { Faults self.old.faults self.new.faults result }
        ensures counts { self.new.faults ≡ counted result self.old.faults }
        ensures answered { OnOk result (F.failures self.new.image.file ≡ F.failures self.old.image.file) }
        ensures failed { OnErr result (Goes IsOneMore (F.failures self.old.image.file) (F.failures self.new.image.file)) }
    {
        count_failure(self.image.len(), &mut self.faults)
    }

    fn read_at(&mut self, at: u64, buf: &mut [u8]) -> Result<(), Failed>
        requires { IfSome (F.contents self.old.image.file) (λ bytes. at + length buf.old ≤ length bytes) }
        ensures value { OnOk result (IfSome (F.contents self.old.image.file) (λ bytes. buf.new ≡ slice_range bytes at (at + length buf.old))) }
        ensures same { F.contents self.new.image.file ≡ F.contents self.old.image.file }
        ensures waits { self.new.image.waits ≡ self.old.image.waits }
        ensures faults { Faults self.old.faults self.new.faults result }
        ensures counts { self.new.faults ≡ counted result self.old.faults }
        ensures answered { OnOk result (F.failures self.new.image.file ≡ F.failures self.old.image.file) }
        ensures failed { OnErr result (IfSome (F.contents self.old.image.file) (λ _. Goes IsOneMore (F.failures self.old.image.file) (F.failures self.new.image.file))) }
    {
        count_failure(self.image.read_at(at, buf), &mut self.faults)
    }

    fn write_at(&mut self, at: u64, bytes: &[u8]) -> Result<(), Failed>
        requires { IfSome (F.contents self.old.image.file) (λ old. at + length bytes.now ≤ length old) }
        ensures ok { OnOk result (Goes (λ old new. new ≡ written old at bytes.now) (F.contents self.old.image.file) (F.contents self.new.image.file)) }
        ensures err { OnErr result (Goes (SameOutside ((at, length bytes.now) ∷ [])) (F.contents self.old.image.file) (F.contents self.new.image.file)) }
        ensures waits { self.new.image.waits ≡ true }
        ensures faults { Faults self.old.faults self.new.faults result }
        ensures counts { self.new.faults ≡ counted result self.old.faults }
        ensures answered { OnOk result (F.failures self.new.image.file ≡ F.failures self.old.image.file) }
        ensures failed { OnErr result (IfSome (F.contents self.old.image.file) (λ _. Goes IsOneMore (F.failures self.old.image.file) (F.failures self.new.image.file))) }
    {
        count_failure(self.image.write_at(at, bytes), &mut self.faults)
    }

    /// Where nothing waits the file is not called.
    fn flush(&mut self) -> Result<(), Failed>
        ensures same { F.contents self.new.image.file ≡ F.contents self.old.image.file }
        ensures kept { OnOk result ((F.is_synced self.new.image.file ≡ true) × (F.is_name_synced self.new.image.file ≡ true)) }
        ensures ok { OnOk result (self.new.image.waits ≡ false) }
        ensures err { OnErr result (self.new.image.waits ≡ self.old.image.waits) }
        ensures idle { self.old.image.waits ≡ false → self.new.image ≡ self.old.image }
        ensures faults { Faults self.old.faults self.new.faults result }
        ensures counts { self.new.faults ≡ counted result self.old.faults }
        ensures answered { OnOk result (F.failures self.new.image.file ≡ F.failures self.old.image.file) }
        ensures failed { OnErr result (Goes IsOneMore (F.failures self.old.image.file) (F.failures self.new.image.file)) }
    {
        count_failure(self.image.flush(), &mut self.faults)
    }

    fn ensure(&mut self, len: u64) -> Result<(), Failed>
        ensures ok { OnOk result (Goes (GrewTo len) (F.contents self.old.image.file) (F.contents self.new.image.file)) }
        ensures err { OnErr result (Goes (GrewTowards len) (F.contents self.old.image.file) (F.contents self.new.image.file)) }
        ensures waits { self.new.image.waits ≡ true }
        ensures faults { Faults self.old.faults self.new.faults result }
        ensures counts { self.new.faults ≡ counted result self.old.faults }
        ensures answered { OnOk result (F.failures self.new.image.file ≡ F.failures self.old.image.file) }
        ensures failed { OnErr result (Goes IsOneMore (F.failures self.old.image.file) (F.failures self.new.image.file)) }
    {
        count_failure(self.image.ensure(len), &mut self.faults)
    }
}
